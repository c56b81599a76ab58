// A name, or another text.
ghost use Rattle.std.specs.Prelude.{◌≡◌, ℕ, List, Some, string_bytes};

use std::fmt;
use std::marker::Model;

/// A name, a key or another text. A contract sees its bytes.
#[derive(Debug, Drop)]
pub struct Text {
    text: String,
}

impl Model for Text {
    ghost Value = { List ℕ };

    ghost view = { λ t. string_bytes t.text };
}

impl Text {
    /// The text of this string. Takes no memory.
    pub fn new(text: String) -> Text
        ensures { result ≡ string_bytes text }
    {
        Text { text }
    }

    /// The text as a `&str`. Takes no memory.
    pub fn as_str(&self) -> &str
        ensures { result.now ≡ self.now }
    {
        self.text.as_str()
    }
}

/// Prints the text as it is.
impl fmt::Display for Text {
    ghost output = { λ t. Some t };

    fn fmt<W: fmt::Write>(&self, f: &mut fmt::Formatter<W>) -> fmt::Result {
        f.write_str(self.text.as_str())
    }
}

#[cfg(test)]
mod tests {
    use super::*;
    use std::test::Fail;

    #[test]
    fn texts(rt: HostRuntime) -> Result<(), Fail> {
        let text = Text::new(String::from_str(rt.alloc(), "valve_1")?);
        assert!(rt; text.as_str() == "valve_1");
        let line = format!(in rt.alloc(); "{text}: missing")?;
        assert!(rt; line.as_str() == "valve_1: missing");
        Ok(())
    }
}
