// Records: one byte of kind, then a body whose length the kind fixes.
ghost use Rattle.std.specs.Prelude.{◌≡◌, ◌+◌, ◌≤◌, length};
ghost use Rattle.files.specs.Bytes.{word as «word_of»};
ghost use Rattle.files.specs.Records.{body_length, record_at, is_kind, is_head, Body, KindBody};

// The kinds.
pub const HEAD: u8 = 1;

pub const PACKETS: u8 = 2;

pub const BUCKET: u8 = 3;

pub const END: u8 = 4;

// A head with the fifth pair.
pub const EXTENDED_HEAD: u8 = 10;

// How many bytes a body of each kind has.
pub(crate) const HEAD_BODY: usize = 37;

pub(crate) const EXTENDED_HEAD_BODY: usize = HEAD_BODY + 8;

pub(crate) const PACKETS_BODY: usize = 8;

pub(crate) const BUCKET_BODY: usize = 12;

pub(crate) const END_BODY: usize = 4;

// And a whole record.
pub(crate) const HEAD_LENGTH: usize = 1 + HEAD_BODY;

pub(crate) const EXTENDED_HEAD_LENGTH: usize = 1 + EXTENDED_HEAD_BODY;

pub const PACKETS_LENGTH: usize = 1 + PACKETS_BODY;

pub const BUCKET_LENGTH: usize = 1 + BUCKET_BODY;

pub const END_LENGTH: usize = 1 + END_BODY;

// What stands at an offset: a whole record of its kind, and where the next begins; one that is cut; one of no known kind; or
// nothing.
#[derive(Clone, Copy, Debug, PartialEq, Eq)]
pub enum Record {
    Whole(u8, usize),
    Cut,
    Unknown,
    Missing,
}

// How many bytes a body of this kind has; 0 for a kind that is not known.
fn body_length(kind: u8) -> usize
    ensures { result ≡ body_length kind }
{
    match kind {
        HEAD => HEAD_BODY,
        PACKETS => PACKETS_BODY,
        BUCKET => BUCKET_BODY,
        END => END_BODY,
        EXTENDED_HEAD => EXTENDED_HEAD_BODY,
        _ => 0,
    }
}

pub fn record_at(bytes: &[u8], at: usize) -> Record
    ensures { result ≡ record_at bytes.now at }
{
    if bytes.len() <= at {
        return Record::Missing;
    }
    let kind = bytes[at];
    let long = body_length(kind);
    if long == 0 {
        return Record::Unknown;
    }
    if bytes.len() - at <= long {
        return Record::Cut;
    }
    Record::Whole(kind, at + 1 + long)
}

// Whether a whole record of a kind stands there.
pub fn is_kind(bytes: &[u8], at: usize, kind: u8) -> bool
    ensures { result ≡ is_kind kind (record_at bytes.now at) }
{
    matches!(record_at(bytes, at), Record::Whole(k, _) if k == kind)
}

// Whether a whole head stands there, of either profile.
pub fn is_head(bytes: &[u8], at: usize) -> bool
    ensures { result ≡ is_head (record_at bytes.now at) }
{
    is_kind(bytes, at, HEAD) || is_kind(bytes, at, EXTENDED_HEAD)
}

// The body of the record at an offset, a part of the lent bytes; an empty part at their start where no whole record stands there.
pub fn body(bytes: &[u8], at: usize) -> &[u8]
    ensures { Body at bytes.entry.ref_ptr bytes.now result.ref_ptr result.now }
{
    let Record::Whole(_, next) = record_at(bytes, at) else {
        return &bytes[..0];
    };
    let start = at + 1;
    &bytes[start..next]
}

// The body of a record of a kind at an offset; an empty part at the bytes' start where no whole record of that kind stands there.
pub fn body_of(bytes: &[u8], at: usize, kind: u8) -> &[u8]
    ensures { KindBody kind at bytes.entry.ref_ptr bytes.now result.ref_ptr result.now }
{
    if !is_kind(bytes, at, kind) {
        return &bytes[..0];
    }
    body(bytes, at)
}

// Four bytes as a number, the highest first.
pub(crate) fn word(bytes: &[u8], at: usize) -> u32
    requires { at + 4 ≤ length bytes.now }
    ensures { result ≡ «word_of» bytes.now at }
{
    u32::from_be_bytes([bytes[at], bytes[at + 1], bytes[at + 2], bytes[at + 3]])
}
