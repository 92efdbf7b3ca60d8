//! What is left of bytes behind what was read at their front.
ghost use Rattle.std.specs.Prelude.{◌≡◌};
ghost use Rattle.capnp_json_text.specs.Readings.{after_blanks, after_only, is_blank};
ghost use Rattle.capnp_json_text.specs.Seen.{rest_seen};

/// The bytes behind what was read, or those from the first on that can't stand there, none where the bytes end too soon.
pub type Rest<'a> = std::result::Result<&'a [u8], &'a [u8]>;

fn is_blank(byte: u8) -> bool
    ensures { result ≡ is_blank byte }
{
    byte == b' ' || byte == b'\t' || byte == b'\n' || byte == b'\r'
}

/// The bytes behind blanks: spaces, tabs, line feeds and carriage returns, if there are any.
pub fn skip_blanks(bytes: &[u8]) -> &[u8]
    ensures { result.now ≡ after_blanks bytes.now }
{
    for index in 0..bytes.len() {
        if !is_blank(bytes[index]) {
            return &bytes[index..];
        }
    }
    &bytes[bytes.len()..]
}

/// The bytes behind this byte, which has to stand first.
pub(crate) fn skip_only(wanted: u8, bytes: &[u8]) -> Rest<'_>
    ensures { rest_seen result ≡ after_only wanted bytes.now }
{
    let [first, behind @ ..] = bytes else {
        return Err(bytes);
    };
    if *first == wanted {
        Ok(behind)
    } else {
        Err(bytes)
    }
}
