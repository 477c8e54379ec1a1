// The lister of new cards, of 18 bytes, which say the archive.
#![tactic(auto)]

use card_text::Form;
use std::process::ExitCode;

fn main(rt: HostRuntime) -> ExitCode {
    lister::program!(rt, Form::ArchiveCard)
}
