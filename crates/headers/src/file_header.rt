// The file header (document 000, section 5.2).
ghost use Rattle.std.specs.Prelude.{◌≡◌};
ghost use Rattle.headers.specs.FileHeader.{file_header_size, file_header_of, is_signed, is_version};

use crate::fields::Fields;

// "Paint Shop Pro Image File", 0A 1A and five zeros.
pub const SIGNATURE: [u8; 32] = *b"Paint Shop Pro Image File\n\x1a\0\0\0\0\0";

#[derive(Clone, Copy)]
pub struct FileHeader {
    pub signature: [u8; 32],
    pub major: u16,
    pub minor: u16,
}

impl Fields for FileHeader {
    const SIZE: usize = 36;

    ghost SIZE = { file_header_size };

    ghost fields_of = { file_header_of };

    #[tactic(auto, unfolding(crate::specs::FileHeader::file_header_of))]
    fn of(header: &[u8]) -> FileHeader {
        FileHeader {
            signature: endian::bytes_at(header, 0),
            major: endian::u16_at(header, 32),
            minor: endian::u16_at(header, 34),
        }
    }
}

impl FileHeader {
    // Where the two versions stand.
    pub const VERSION: usize = 32;

    // The 32 bytes are the signature.
    #[tactic(auto, using(crate::proofs::Signature::same_bytes))]
    pub fn signed(self) -> bool
        ensures { result ≡ is_signed self }
    {
        self.signature == SIGNATURE
    }

    pub fn version_3_0(self) -> bool
        ensures { result ≡ is_version self }
    {
        self.major == 3 && self.minor == 0
    }
}
