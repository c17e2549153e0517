// The paths of files.
ghost use Rattle.std.specs.Prelude.{◌≡◌, ◌<◌, IfSome, bytes_eq};
ghost use Rattle.load_mill.specs.Files.{big_path, digit, file_path};

// The last decimal digit of a number, as a byte.
fn digit(n: u32) -> u8
    ensures { result ≡ digit n }
{
    48 + (n % 10) as u8
}

/// Whether a path is that of the file of this index.
pub(crate) fn is_path_of(path: &[u8], k: u32) -> bool
    ensures { result ≡ bytes_eq path.now (file_path k) }
{
    path == [
        b'/',
        b'm',
        b'i',
        b'l',
        b'l',
        b'/',
        b'f',
        digit(k / 100000),
        digit(k / 10000),
        digit(k / 1000),
        digit(k / 100),
        digit(k / 10),
        digit(k),
    ]
    .as_slice()
}

// The number that the bytes behind a path's first seven spell, if they are digits. No clause says it, since the path of
// the number is held against the whole path.
fn number_in(path: &[u8]) -> u32 {
    let mut k: u32 = 0;
    for byte in path.iter().skip(7) {
        k = k
            .wrapping_mul(10)
            .wrapping_add(u32::from(byte.wrapping_sub(48)));
    }
    k
}

/// The index of the file that a path names, of so many files; None where it names none of them.
pub(crate) fn index_of(path: &[u8], files: u32) -> Option<u32>
    ensures { IfSome result (λ k. (path.now ≡ file_path k) × (k < files)) }
{
    let k = number_in(path);
    if k < files && is_path_of(path, k) {
        Some(k)
    } else {
        None
    }
}

/// Whether a path is that of the file that fills the buffer.
pub(crate) fn is_big(path: &[u8]) -> bool
    ensures { result ≡ bytes_eq path.now big_path }
{
    path == b"/mill/x".as_slice()
}
