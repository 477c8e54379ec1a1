// The fields of the bytes received. Each is total: a byte past the end reads as 0.
ghost use Rattle.std.specs.Prelude.{◌≡◌, ◌-◌, length};
ghost use Rattle.pulsar_frame.specs.Layout.{address_of, function_of, len_of, id_of};
ghost use Rattle.pulsar_frame.specs.Reading.{frame_of};

use crate::Frame;

// What names an exchange: that of a frame to be written, or that which the master asked with.
#[derive(Clone, Copy)]
pub struct Names {
    pub address: u32,
    pub function: u8,
    pub id: u16,
}

pub fn address_of(bytes: &[u8]) -> u32
    ensures { result ≡ address_of bytes.now }
{
    wire::bcd32(bytes)
}

pub fn function_of(bytes: &[u8]) -> u8
    ensures { result ≡ function_of bytes.now }
{
    wire::byte_at(bytes, 4)
}

pub fn len_of(bytes: &[u8]) -> usize
    ensures { result ≡ len_of bytes.now }
{
    usize::from(wire::byte_at(bytes, 5))
}

// LEN less the bytes received.
pub fn lack_of(bytes: &[u8]) -> usize
    ensures { result ≡ len_of bytes.now - length bytes.now }
{
    wire::minus(len_of(bytes), bytes.len())
}

pub fn id_of(bytes: &[u8]) -> u16
    ensures { result ≡ id_of bytes.now }
{
    wire::le16_at(bytes, wire::minus(len_of(bytes), 4))
}

pub fn frame_of(bytes: &[u8]) -> Frame
    ensures { result ≡ frame_of bytes.now }
{
    Frame {
        address: address_of(bytes),
        function: function_of(bytes),
        id: id_of(bytes),
        len: len_of(bytes),
    }
}
