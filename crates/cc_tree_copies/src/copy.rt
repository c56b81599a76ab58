// Copies of the words in trees.
ghost use Rattle.std.specs.Prelude.{◌≡◌, IfOk};

use cc_base::{Bytes, List, Memory, Text};
use std::alloc::Global;

/// A copy of a text, in memory of its own.
pub fn copied_text(alloc: Global, text: &Text) -> Result<Text, Memory>
    ensures { IfOk result (λ r. r ≡ text.now) }
{
    Ok(Text::new(String::from_str(alloc, text.as_str())?))
}

/// A copy of the tag of a `struct` or an `enum`, in memory of its own; none where there is no tag.
pub fn copied_tag(alloc: Global, tag: &Option<Text>) -> Result<Option<Text>, Memory>
    ensures { IfOk result (λ r. r ≡ tag.now) }
{
    match tag {
        None => Ok(None),
        Some(tag) => Ok(Some(copied_text(alloc, tag)?)),
    }
}

/// A copy of string literals that stand side by side, in memory of its own.
pub fn copied_strings(alloc: Global, strings: &List<Bytes>) -> Result<List<Bytes>, Memory>
    ensures { IfOk result (λ r. r ≡ strings.now) }
{
    let mut copy = List::new(alloc);
    for i in 0..strings.len() {
        copy.push(copied_bytes(alloc, strings.get(i))?)?;
    }
    Ok(copy)
}

fn copied_bytes(alloc: Global, bytes: &Bytes) -> Result<Bytes, Memory>
    ensures { IfOk result (λ r. r ≡ bytes.now) }
{
    Ok(Bytes::new(Vec::from_slice(alloc, bytes.bytes())?))
}

#[cfg(test)]
mod tests {
    use super::*;
    use std::test::Fail;

    fn is_valve(text: &Text) -> bool {
        text.as_str() == "valve_1"
    }

    fn are_one_two(strings: &List<Bytes>) -> bool {
        strings.len() == 2
            && strings.get(0).bytes() == b"one".as_slice()
            && strings.get(1).bytes() == b"two".as_slice()
    }

    #[test]
    fn copies(rt: HostRuntime) -> Result<(), Fail> {
        let alloc = rt.alloc();
        let text = Text::new(String::from_str(alloc, "valve_1")?);
        assert!(rt; is_valve(&copied_text(alloc, &text)?));
        assert!(rt; copied_tag(alloc, &None)?.is_none());
        let tag = copied_tag(alloc, &Some(text))?;
        assert!(rt; matches!(&tag, Some(tag) if is_valve(tag)));
        let mut strings = List::new(alloc);
        for word in [b"one", b"two"] {
            strings.push(Bytes::new(word.to_vec(alloc)?))?;
        }
        assert!(rt; are_one_two(&copied_strings(alloc, &strings)?));
        Ok(())
    }
}
