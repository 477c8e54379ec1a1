// What a request and a reply of function 14 (hexadecimal) begin with.
ghost use Rattle.std.specs.Prelude.{◌≡◌};
ghost use Rattle.adi.specs.Head.{not_function, other_count};

pub fn not_function(pdu: &[u8]) -> bool
    ensures { result ≡ not_function pdu.now }
{
    wire::byte_at(pdu, 0) != crate::FUNCTION
}

// Whether the byte count is not the number of bytes after it.
pub fn other_count(pdu: &[u8]) -> bool
    ensures { result ≡ other_count pdu.now }
{
    let body = wire::rest(pdu, 2);
    wire::byte_at(pdu, 1) as usize != body.len()
}
