// A term of a report, as the node says it.
use correction::Term;
use std::fmt;
use std::fmt::{Display, Formatter};

#[derive(Clone, Copy)]
pub struct Said(pub Term);

impl Display for Said {
    fn fmt<W: fmt::Write>(&self, f: &mut Formatter<W>) -> fmt::Result {
        write!(f, "{}", self.0.value.0)?;
        if self.0.is_missing {
            f.write_str(" missing")?;
        }
        if self.0.is_limited {
            f.write_str(" limited")?;
        }
        Ok(())
    }
}
