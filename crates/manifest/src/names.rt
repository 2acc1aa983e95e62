//! Names of Kubernetes' objects (Kubernetes, "Object Names and IDs").

ghost use Rattle.std.specs.Prelude.{◌≡◌};
ghost use Rattle.std.specs.List.{list_all};
ghost use Rattle.manifest.specs.rule.Names.{is_name, is_label, is_label_byte, is_name_byte, is_alphanumeric};
ghost use Rattle.manifest.specs.rule.Names.{has_ends};

fn is_alphanumeric(byte: u8) -> bool
    ensures { result ≡ is_alphanumeric byte }
{
    byte.is_ascii_lowercase() || byte.is_ascii_digit()
}

fn is_label_byte(byte: u8) -> bool
    ensures { result ≡ is_label_byte byte }
{
    is_alphanumeric(byte) || byte == b'-'
}

fn is_name_byte(byte: u8) -> bool
    ensures { result ≡ is_name_byte byte }
{
    is_label_byte(byte) || byte == b'.'
}

fn has_ends(text: &[u8]) -> bool
    ensures { result ≡ has_ends text.now }
{
    match text {
        [] => false,
        [first, .., last] => is_alphanumeric(*first) && is_alphanumeric(*last),
        [only] => is_alphanumeric(*only),
    }
}

fn has_name_bytes(text: &[u8]) -> bool
    ensures { result ≡ list_all is_name_byte text.now }
{
    text.iter().all(|byte| is_name_byte(*byte))
}

fn has_label_bytes(text: &[u8]) -> bool
    ensures { result ≡ list_all is_label_byte text.now }
{
    text.iter().all(|byte| is_label_byte(*byte))
}

/// Whether the text is the name of an object: 1 to 253 bytes from `a` to `z`, `0` to `9`, `-` and
/// `.`, with a letter or digit at both ends.
#[tactic(auto, unfolding(crate::specs::rule::Names::is_name))]
pub fn is_name(text: &[u8]) -> bool
    ensures { result ≡ is_name text.now }
{
    0 < text.len() && text.len() <= 253 && has_name_bytes(text) && has_ends(text)
}

/// Whether the text is the name of a namespace or a container: a name of at most 63 bytes with no
/// point.
#[tactic(auto, unfolding(crate::specs::rule::Names::is_label))]
pub fn is_label(text: &[u8]) -> bool
    ensures { result ≡ is_label text.now }
{
    0 < text.len() && text.len() <= 63 && has_label_bytes(text) && has_ends(text)
}
