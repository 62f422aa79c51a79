// The drive's features, in rising order of their numbers.
ghost use Rattle.std.specs.Prelude.{◌≡◌, ◌+◌, ◌≤◌};
ghost use Rattle.features.specs.Feature.{is_asked, whole_descriptor};

// The current profile: DVD+R.
pub const PROFILE: u32 = 0x001B;

// The request types that ask for every feature from one on, and for that one alone. Numbers and no enum: `configuration_bytes` takes every
// number that a command can bring.
pub const ALL_FEATURES: u8 = 0;

pub const ONE_FEATURE: u8 = 2;

// How many features there are.
pub const COUNT: usize = 10;

// A feature: its number, its version, and the length of its feature dependent data with those, as two numbers of four bytes. No slice:
// `feature` and `whole_descriptor` name the fields.
#[derive(Clone, Copy)]
pub struct Feature {
    pub number: u16,
    pub version: u8,
    pub length: u8,
    pub first: u32,
    pub second: u32,
}

// One of version 0 with four bytes of data, all zeros.
const PLAIN: Feature = Feature {
    number: 0x0000,
    version: 0,
    length: 4,
    first: 0x00000000,
    second: 0x00000000,
};

// The drive's features: the profiles are DVD+R, the current one, and DVD-ROM; Random Readable has PP (page present), DVD+R its write bit.
pub(crate) static FEATURES: [Feature; COUNT] = [
    Feature {
        number: 0x0000,
        length: 8,
        first: 0x001B0100,
        second: 0x00100000,
        ..PLAIN
    },
    Feature {
        number: 0x0001,
        length: 8,
        ..PLAIN
    },
    Feature {
        number: 0x0002,
        ..PLAIN
    },
    Feature {
        number: 0x0003,
        ..PLAIN
    },
    Feature {
        number: 0x0010,
        length: 8,
        second: 0x00000100,
        ..PLAIN
    },
    Feature {
        number: 0x001F,
        ..PLAIN
    },
    Feature {
        number: 0x002B,
        version: 1,
        first: 0x01000000,
        ..PLAIN
    },
    Feature {
        number: 0x0100,
        ..PLAIN
    },
    Feature {
        number: 0x0105,
        ..PLAIN
    },
    Feature {
        number: 0x0107,
        ..PLAIN
    },
];

impl Feature {
    // Bytes of a descriptor with the longest data.
    pub(crate) const LONGEST: usize = 12;

    // Whether a request asks for it: type 2 for the feature with the starting number alone, types 0 and 1 for every one from there on.
    pub(crate) fn is_asked(&self, request_type: u8, start: u16) -> bool
        ensures { result ≡ is_asked request_type start self.now }
    {
        if request_type == ONE_FEATURE {
            self.number == start
        } else {
            start <= self.number
        }
    }

    // How many bytes its descriptor has.
    pub(crate) fn descriptor_length(&self) -> usize
        ensures { result ≡ 4 + self.now.length }
    {
        4 + usize::from(self.length)
    }

    // Its descriptor with all eight bytes of data: the number, the version, that it is current, the length of the data, the data.
    pub(crate) fn descriptor(&self) -> [u8; Feature::LONGEST]
        requires { self.now.version ≤ 1 }
        ensures { result ≡ whole_descriptor self.now }
    {
        let mut bytes = [0; Feature::LONGEST];
        bytes[..2].copy_from_slice(&self.number.to_be_bytes());
        bytes[2] = 4 * self.version + 1;
        bytes[3] = self.length;
        bytes[4..8].copy_from_slice(&self.first.to_be_bytes());
        bytes[8..].copy_from_slice(&self.second.to_be_bytes());
        bytes
    }
}
