// What the bodies of requests and replies share. A body is a head of fixed fields and, in some functions, value bytes after it.
#![tactic(auto)]

ghost use Rattle.std.specs.Prelude.{ℕ, ◌≡◌, ◌≤◌, false, true, ◌*◌, List, ◌++◌, length, MatchResult};
ghost use Rattle.wire.specs.Answer.{judged};
ghost use Rattle.wire.specs.Numbered.{refusal};
ghost use Rattle.std.proofs.lemmas.List.Edits.{sets};
ghost use Rattle.wire.specs.Refusal.{Rule, first, named};
ghost use Rattle.wire.specs.Writes.{Writes};
ghost use Rattle.reading.specs.Mask.{channel_count};
ghost use Rattle.reading.specs.Values.{uneven, bad_width};
ghost use Rattle.pulsar_body.specs.declared.Form.{Form};
ghost use Rattle.pulsar_body.specs.Fields.{no_channel, not_one, not_date, mask_faults, one_faults, date_faults};
ghost use Rattle.pulsar_body.specs.Body.{other_than, bad_values, bad_length, judged_body, values_rules, write_rules, too_long, no_room, room_rules};

use date::DateTime;
use reading::mask::channel_count;
use reading::values::bad_width;
use wire::{Refusal, Written};

// The value bytes that follow a head. That none do is one of four rules, and no value that is missing.
#[derive(Clone, Copy, Debug, PartialEq, Eq)]
pub enum Values {
    Nothing,
    // One value a channel of a mask.
    Channels,
    // 0 or more values.
    Any,
    // 8 bytes.
    Eight,
}

// What a function's body is made of: a head of so many bytes, and the values that are due after it.
#[derive(Clone, Copy, Debug, PartialEq, Eq)]
pub struct Form {
    pub head: usize,
    pub values: Values,
}

// What says how its body is made: a function, and so a request and a reply.
pub trait Formed {
    ghost the_form: { Self → Form };

    fn form(self) -> Form
        ensures { result ≡ the_form self };
}

// A form itself, for who has no function that has it.
impl Formed for Form {
    ghost the_form = { λ form. form };

    fn form(self) -> Form {
        self
    }
}

// A request or a reply, to be written: the bytes of its head, and the rules of its fields. These may ask the mask of the values that are
// written with it.
pub trait Body: Formed + Copy {
    ghost faults: { Self → ℕ → List Rule };

    ghost head: { Self → List ℕ };

    fn fields_fault(self, mask: u32) -> Result<(), Refusal>
        ensures { result ≡ judged tt (first (faults self mask)) };

    fn put_head(self, out: &mut [u8])
        ensures { out.new ≡ sets out.old 0 (head self) };

    ghost faults_named: { (x : Self) (mask : ℕ) → named (faults x mask) ≡ true };

    ghost head_length: { (x : Self) → length (head x) ≡ (Self.the_form x).head };

    ghost head_few: { (x : Self) → (Self.the_form x).head ≤ 245 };
}

// The bytes of a value: 4 or 8.
#[derive(Clone, Copy)]
struct Width {
    bytes: usize,
    ghost good: { bad_width bytes ≡ false },
}

// ---- the fields

fn no_channel(mask: u32) -> bool
    ensures { result ≡ no_channel mask }
{
    mask == 0
}

pub fn not_one(mask: u32) -> bool
    ensures { result ≡ not_one mask }
{
    channel_count(mask) != 1
}

pub fn not_date(d: DateTime) -> bool
    ensures { result ≡ not_date d }
{
    !date::is_date(d)
}

pub fn mask_fault(mask: u32) -> Result<(), Refusal>
    ensures { result ≡ judged tt (first (mask_faults mask)) }
{
    if no_channel(mask) {
        return Err(Refusal::BadMask);
    }
    Ok(())
}

// Of an 06 request and reply.
pub fn one_fault(mask: u32) -> Result<(), Refusal>
    ensures { result ≡ judged tt (first (one_faults mask)) }
{
    if not_one(mask) {
        return Err(Refusal::BadMask);
    }
    Ok(())
}

pub fn date_fault(d: DateTime) -> Result<(), Refusal>
    ensures { result ≡ judged tt (first (date_faults d)) }
{
    if not_date(d) {
        return Err(Refusal::BadDate);
    }
    Ok(())
}

// ---- the lengths

fn other_than(n: usize, values: &[u8]) -> bool
    ensures { result ≡ other_than n values.now }
{
    values.len() != n
}

impl Width {
    fn of(bytes: usize) -> Result<Width, Refusal>
        ensures { MatchResult result (λ w. w.bytes ≡ bytes) (λ e. (e ≡ refusal 1) × (bad_width bytes ≡ true)) }
    {
        if bad_width(bytes) {
            return Err(Refusal::BadArgument);
        }
        Ok(Width { bytes })
    }

    // At most 32 channels of 8 bytes.
    fn of_channels(self, mask: u32) -> usize
        ensures { result ≡ channel_count mask * self.bytes }
    {
        channel_count(mask) * self.bytes
    }

    fn is_uneven(self, values: &[u8]) -> bool
        ensures { result ≡ uneven self.bytes values.now }
    {
        values.len() % self.bytes != 0
    }
}

impl Values {
    fn are_bad(self, width: Width, mask: u32, values: &[u8]) -> bool
        ensures { result ≡ bad_values self width.bytes mask values.now }
    {
        match self {
            Values::Nothing => other_than(0, values),
            Values::Channels => other_than(width.of_channels(mask), values),
            Values::Any => width.is_uneven(values),
            Values::Eight => other_than(8, values),
        }
    }
}

impl Form {
    fn has_bad_length(self, width: Width, mask: u32, body: &[u8]) -> bool
        ensures { result ≡ bad_length self width.bytes mask body.now }
    {
        let bad = self
            .values
            .are_bad(width, mask, wire::rest(body, self.head));
        (245 < body.len()) | (body.len() < self.head) | bad
    }
}

// Width, mask and bytes are told apart: the promises of readers and writers name each, and a writer's mask is that of its request.
// Reading, before the fields: 1, 10 of no function, 11. Where none holds, the function's fields are to be judged.
pub fn body_fault<F: Formed + Copy>(
    function: Option<F>,
    width: usize,
    mask: u32,
    body: &[u8],
) -> Result<F, Refusal>
    ensures { result ≡ judged_body F.the_form function width mask body.now }
{
    let width = Width::of(width)?;
    let known = function.ok_or(Refusal::UnknownFunction)?;
    if known.form().has_bad_length(width, mask, body) {
        return Err(Refusal::BadBody);
    }
    Ok(known)
}

// Writing, before the fields: 1, 11.
pub fn values_fault(due: Values, width: usize, mask: u32, values: &[u8]) -> Result<(), Refusal>
    ensures { result ≡ judged tt (first (values_rules due width mask values.now)) }
{
    let width = Width::of(width)?;
    if due.are_bad(width, mask, values) {
        return Err(Refusal::BadBody);
    }
    Ok(())
}

fn too_long(needed: usize) -> bool
    ensures { result ≡ too_long needed }
{
    245 < needed
}

fn no_room(needed: usize, room: usize) -> bool
    ensures { result ≡ no_room needed room }
{
    room < needed
}

// Writing, after the fields: 17, 16, of a body that needs so many bytes and an output of so many.
pub fn room_fault(needed: usize, room: usize) -> Result<(), Refusal>
    ensures { result ≡ judged tt (first (room_rules needed room)) }
{
    if too_long(needed) {
        return Err(Refusal::TooLong);
    }
    if no_room(needed, room) {
        return Err(Refusal::NoRoom);
    }
    Ok(())
}

// The body over the front of out: its head, and these value bytes after it.
pub fn write_body<B: Body>(
    body: B,
    width: usize,
    mask: u32,
    values: &[u8],
    out: &mut [u8],
) -> Written
    ensures { Writes (first (write_rules (B.the_form body) (B.faults body mask) width mask values.now (length (B.head body ++ values.now)) (length out.old))) (B.head body ++ values.now) out.old result out.new }
{
    let form = body.form();
    values_fault(form.values, width, mask, values)?;
    body.fields_fault(mask)?;
    let needed = form.head + values.len();
    room_fault(needed, out.len())?;
    body.put_head(out);
    wire::put_all(out, form.head, values);
    Ok(needed)
}
