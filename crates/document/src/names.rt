// Names of tags.
ghost use Rattle.std.specs.Prelude.{◌≡◌, ◌==◌, position};
ghost use Rattle.document.specs.Tags.{after_prefix, name_in, local_name};

use crate::Mode;

// A tag's name after a prefix; empty where it doesn't carry that.
#[tactic(auto, using(crate::proofs::Prefixes::under_other))]
pub fn name_under<'a>(prefix: &[u8], name: &'a [u8]) -> &'a [u8]
    ensures { result.now ≡ after_prefix prefix.now name.now }
{
    if prefix.is_empty() {
        return name;
    }
    let Some(rest) = name.strip_prefix(prefix) else {
        return &[];
    };
    rest.strip_prefix(b":").unwrap_or(&[])
}

// A tag's name under the mode's prefix.
pub fn name_in<'a>(s: &[u8], m: Mode, name: &'a [u8]) -> &'a [u8]
    ensures { result.now ≡ name_in s.now m name.now }
{
    name_under(text::part(s, m.prefix_start, m.prefix_end), name)
}

// Where a tag's name has its first ":".
fn colon_in(name: &[u8]) -> Option<usize>
    ensures { result ≡ position (λ b. b == 58) name.now }
{
    name.iter().position(|&b| b == b':')
}

// A tag's name after its first ":", or all of it.
#[tactic(auto, using(crate::proofs::Prefixes::local_after, crate::proofs::Prefixes::local_all))]
pub fn local_name(name: &[u8]) -> &[u8]
    ensures { result.now ≡ local_name name.now }
{
    match colon_in(name) {
        Some(i) => &name[i + 1..],
        None => name,
    }
}
