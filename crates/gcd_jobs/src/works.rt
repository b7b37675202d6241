// How the bytes of a range are counted. The loops have no branch and count in 32 or 16 bits, so that LLVM makes them loops over
// several bytes at a time.
ghost use Rattle.std.specs.Prelude.{◌≡◌, ◌<◌, ◌≤◌, ◌^◌, ◌==◌, length, take, drop, sum, count_by, false};
ghost use Rattle.gcd_history.specs.Values.{counted, work_value, words_begun, is_space};
ghost use Rattle.gcd_jobs.specs.Contents.{contents};

use gcd_plan::{How, Work};

// The work's value over the files; a file that is not in the list has no bytes.
pub fn counted_in(files: &[Vec<u8>], work: Work) -> u64
    ensures { result ≡ work_value (contents files.now) work }
{
    match files.get(work.file as usize) {
        Some(bytes) => counted(work.how, range_of(bytes, work.start, work.len)),
        None => counted(work.how, &[]),
    }
}

// The bytes from start on, at most len of them and no more than there are.
fn range_of(bytes: &[u8], start: u32, len: u32) -> &[u8]
    ensures { result.now ≡ take len (drop start bytes.now) }
{
    let start = (start as usize).min(bytes.len());
    let rest = &bytes[start..];
    let len = (len as usize).min(rest.len());
    &rest[..len]
}

// The bytes, counted as the work says.
fn counted(how: How, bytes: &[u8]) -> u64
    requires { length bytes.now < 2 ^ 32 }
    ensures { result ≡ counted how bytes.now }
{
    match how {
        How::Bytes => bytes.len() as u64,
        How::Lines => u64::from(equal_to(bytes, 10)),
        How::Words => u64::from(words(bytes)),
        How::Sum => sum(bytes),
        How::Count(value) => u64::from(equal_to(bytes, value)),
    }
}

// How many of the bytes have this value.
fn equal_to(bytes: &[u8], value: u8) -> u32
    requires { length bytes.now < 2 ^ 32 }
    ensures { result ≡ count_by (λ c. c == value) bytes.now }
{
    let mut n = 0;
    for c in bytes {
        n += u32::from(*c == value);
    }
    n
}

// How many maximal runs of bytes other than 9 to 13 and 32 there are: how many such bytes stand first or behind one of
// those.
fn words(bytes: &[u8]) -> u32
    requires { length bytes.now < 2 ^ 32 }
    ensures { result ≡ words_begun false bytes.now }
{
    let mut inside = false;
    let mut begun = 0;
    for c in bytes {
        let in_word = !is_space(*c);
        begun += u32::from(in_word && !inside);
        inside = in_word;
    }
    begun
}

// The most bytes whose sum always fits 16 bits: 256 times 255 is 65,280.
const SHORT: usize = 256;

// The sum of at most so many bytes. It counts in 16 bits, so that LLVM adds eight bytes at a time.
fn short_sum(bytes: &[u8]) -> u16
    requires { length bytes.now ≤ 256 }
    ensures { result ≡ sum bytes.now }
{
    let mut n = 0;
    for c in bytes {
        n += u16::from(*c);
    }
    n
}

// The sum of the bytes, piece by piece.
fn sum(bytes: &[u8]) -> u64
    requires { length bytes.now < 2 ^ 32 }
    ensures { result ≡ sum bytes.now }
{
    let mut n = 0;
    for piece in bytes.chunks(SHORT) {
        n += u64::from(short_sum(piece));
    }
    n
}

// The byte stands between words.
fn is_space(c: u8) -> bool
    ensures { result ≡ is_space c }
{
    (9 <= c && c <= 13) || c == 32
}
