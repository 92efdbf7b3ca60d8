//! How far leaves and names go.
ghost use Rattle.std.specs.Prelude.{◌≡◌, ◌≤◌, length};
ghost use Rattle.capnp_value_texts.specs.Lengths.{ends_leaf, ends_name, is_end, leaf_length, name_length, next_within, quoted_step};
ghost use Rattle.capnp_value_texts.specs.declared.lengths.Within.TheVariants.{Plain};

/// Where in a leaf a byte stands.
#[derive(Clone, Copy)]
pub(crate) enum Within {
    /// Outside of quotes.
    Plain,
    /// In quotes.
    Quoted,
    /// Behind a backslash in quotes.
    Escaped,
}

/// Whether a byte ends what stands outside of quotes: a blank, a comma, or a closing bracket.
fn is_end(byte: u8) -> bool
    ensures { result ≡ is_end byte }
{
    match byte {
        b' ' | b'\t' | b'\n' | b'\r' => true,
        b',' | b')' | b']' => true,
        _ => false,
    }
}

/// Whether a leaf ends before a byte.
fn ends_leaf(within: Within, byte: u8) -> bool
    ensures { result ≡ ends_leaf within byte }
{
    match within {
        Within::Plain => is_end(byte),
        Within::Quoted => false,
        Within::Escaped => false,
    }
}

/// What stands behind a byte in quotes.
fn quoted_step(byte: u8) -> Within
    ensures { result ≡ quoted_step byte }
{
    if byte == b'"' {
        Within::Plain
    } else if byte == b'\\' {
        Within::Escaped
    } else {
        Within::Quoted
    }
}

/// What stands behind a byte of a leaf.
fn next_within(within: Within, byte: u8) -> Within
    ensures { result ≡ next_within within byte }
{
    match within {
        Within::Plain => {
            if byte == b'"' {
                Within::Quoted
            } else {
                Within::Plain
            }
        }
        Within::Quoted => quoted_step(byte),
        Within::Escaped => Within::Quoted,
    }
}

/// How many bytes a leaf has at the front of bytes.
pub(crate) fn leaf_length(bytes: &[u8]) -> usize
    ensures count { result ≡ leaf_length Plain bytes.now }
    ensures inside { result ≤ length bytes.now }
{
    let mut within = Within::Plain;
    for index in 0..bytes.len() {
        if ends_leaf(within, bytes[index]) {
            return index;
        }
        within = next_within(within, bytes[index]);
    }
    bytes.len()
}

/// Whether a name ends before a byte.
fn ends_name(byte: u8) -> bool
    ensures { result ≡ ends_name byte }
{
    is_end(byte) || byte == b'='
}

/// How many bytes a name has at the front of bytes.
pub(crate) fn name_length(bytes: &[u8]) -> usize
    ensures count { result ≡ name_length bytes.now }
    ensures inside { result ≤ length bytes.now }
{
    for index in 0..bytes.len() {
        if ends_name(bytes[index]) {
            return index;
        }
    }
    bytes.len()
}
