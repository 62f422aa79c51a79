// The whole reply of GET CONFIGURATION.
ghost use Rattle.std.specs.Prelude.{◌≡◌, length, take};
ghost use Rattle.features.specs.Feature.{selected};
ghost use Rattle.features.specs.Configuration.{configuration_bytes, listing, asked_of};

use crate::feature;
use crate::feature::{FEATURES, Feature};

// A reply's bytes, zeros after them, and how many there are. An array beside a length: there is no heap, and `listing` promises the zeros.
#[derive(Clone, Copy)]
pub struct Listing {
    pub bytes: [u8; Listing::LIMIT],
    pub length: usize,
}

// The numbers of features in order, zeros after them, and how many there are. An array beside a count: there is no heap, and `asked_of`
// promises the zeros. It is not one generic with Listing: `listing` and `asked_of` name their fields.
#[derive(Clone, Copy)]
pub struct Asked {
    pub numbers: [u32; feature::COUNT],
    pub count: usize,
}

impl Listing {
    // Bytes of a reply's header.
    const HEADER: usize = 8;

    // Room for the header and ten of the longest descriptors.
    pub const LIMIT: usize = 128;

    // The reply alone, without the zeros after it.
    pub fn as_slice(&self) -> &[u8]
        ensures { result.now ≡ take self.now.length self.now.bytes }
    {
        &self.bytes[..self.length.min(Listing::LIMIT)]
    }
}

// The length of the whole reply to a request type and a starting feature. It makes no bytes: L4 asks for it, and a call that does would
// cost every command a copy of the records. Two numbers and no struct, here and below: a command brings them as two fields, and
// `configuration_bytes` takes them one by one.
pub fn configuration_length(request_type: u8, start: u16) -> usize
    ensures { result ≡ length (configuration_bytes request_type start) }
{
    let descriptors: usize = FEATURES
        .iter()
        .filter(|f| f.is_asked(request_type, start))
        .map(|f| f.descriptor_length())
        .sum();
    Listing::HEADER + descriptors
}

// The whole reply to them.
pub fn configuration(request_type: u8, start: u16) -> Listing
    ensures { result ≡ listing (configuration_bytes request_type start) }
{
    let mut bytes = [0; Listing::LIMIT];
    bytes[4..Listing::HEADER].copy_from_slice(&feature::PROFILE.to_be_bytes());
    let mut length = Listing::HEADER;
    for f in &FEATURES {
        if f.is_asked(request_type, start) {
            bytes[length..length + Feature::LONGEST].copy_from_slice(&f.descriptor());
            length += f.descriptor_length();
        }
    }
    let following = (length - 4) as u32;
    bytes[..4].copy_from_slice(&following.to_be_bytes());
    Listing { bytes, length }
}

// The numbers of the features that a request asks for.
pub fn numbers(request_type: u8, start: u16) -> Asked
    ensures { result ≡ asked_of (selected request_type start) }
{
    let mut numbers = [0; feature::COUNT];
    let mut count = 0;
    for f in &FEATURES {
        if f.is_asked(request_type, start) {
            numbers[count] = u32::from(f.number);
            count += 1;
        }
    }
    Asked { numbers, count }
}
