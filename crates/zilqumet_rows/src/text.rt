//! Bytes that C reads.
ghost use Rattle.std.specs.Prelude.{◌≡◌, length};
ghost use Rattle.core.specs.Ptr.{as_ptr};

/// Some bytes of a value that C keeps: where they lie, and how many.
#[repr(C)]
#[derive(Clone, Copy)]
pub struct Text {
    pub at: *const u8,
    pub len: usize,
}

/// Where bytes lie.
pub fn address_of(bytes: &[u8]) -> *const u8
    ensures { result ≡ as_ptr bytes.entry }
{
    bytes.as_ptr()
}

/// Where numbers lie.
pub fn address_of_numbers(numbers: &[u64]) -> *const u64
    ensures { result ≡ as_ptr numbers.entry }
{
    numbers.as_ptr()
}

/// Where bytes lie, and how many.
pub fn text_of(bytes: &[u8]) -> Text
    ensures at { result.at ≡ as_ptr bytes.entry }
    ensures len { result.len ≡ length bytes.now }
{
    Text {
        at: address_of(bytes),
        len: bytes.len(),
    }
}
