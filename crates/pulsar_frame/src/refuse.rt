// The conditions of the refusal table.
ghost use Rattle.std.specs.Prelude.{◌≡◌};
ghost use Rattle.pulsar_frame.specs.Reading.{bad_own, bad_asked, too_short, not_bcd, bad_length, on_its_way, bad_crc, not_mine, not_asked, no_function, other_function, other_id};
ghost use Rattle.pulsar_frame.specs.Writing.{too_long, no_room};

use crate::fields;
use crate::fields::Names;

pub fn bad_own(own: u32) -> bool
    ensures { result ≡ bad_own own }
{
    own == 0 || 99_999_999 < own
}

pub fn bad_asked(asked: Names) -> bool
    ensures { result ≡ bad_asked asked.address asked.function }
{
    99_999_999 < asked.address || asked.function == 0
}

pub fn too_short(bytes: &[u8]) -> bool
    ensures { result ≡ too_short bytes.now }
{
    bytes.len() < 10
}

pub fn not_bcd(bytes: &[u8]) -> bool
    ensures { result ≡ not_bcd bytes.now }
{
    !wire::is_bcd32(bytes)
}

pub fn bad_length(bytes: &[u8]) -> bool
    ensures { result ≡ bad_length bytes.now }
{
    fields::len_of(bytes) < 10
}

pub fn on_its_way(bytes: &[u8]) -> bool
    ensures { result ≡ on_its_way bytes.now }
{
    bytes.len() < fields::len_of(bytes)
}

pub fn bad_crc(bytes: &[u8]) -> bool
    ensures { result ≡ bad_crc bytes.now }
{
    let len = fields::len_of(bytes);
    let n = wire::minus(len, 2);
    wire::le16_at(bytes, n) != checksum::checksum(wire::front(bytes, n))
}

pub fn not_mine(own: u32, bytes: &[u8]) -> bool
    ensures { result ≡ not_mine own bytes.now }
{
    let a = fields::address_of(bytes);
    !(a == own || a == 0)
}

pub fn not_asked(address: u32, bytes: &[u8]) -> bool
    ensures { result ≡ not_asked address bytes.now }
{
    let a = fields::address_of(bytes);
    !((address != 0 && a == address) || (address == 0 && a != 0))
}

pub fn no_function(bytes: &[u8]) -> bool
    ensures { result ≡ no_function bytes.now }
{
    fields::function_of(bytes) == 0
}

pub fn other_function(function: u8, bytes: &[u8]) -> bool
    ensures { result ≡ other_function function bytes.now }
{
    let f = fields::function_of(bytes);
    !(f == function || f == 0)
}

pub fn other_id(id: u16, bytes: &[u8]) -> bool
    ensures { result ≡ other_id id bytes.now }
{
    fields::id_of(bytes) != id
}

pub fn too_long(payload: &[u8]) -> bool
    ensures { result ≡ too_long payload.now }
{
    245 < payload.len()
}

pub fn no_room(payload: &[u8], out: &[u8]) -> bool
    ensures { result ≡ no_room payload.now out.now }
{
    out.len() < payload.len() + 10
}
