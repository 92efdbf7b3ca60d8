//! Where a text goes: into a string that is being made, or to a formatter.
ghost use Rattle.std.specs.Prelude.{[], ◌+◌, ◌≡◌, ◌++◌, ◌<◌, ◌≤◌, Ok, IfErr, OnErr, OnOk, decimal, length, string_bytes};
ghost use Rattle.std.specs.Fmt.{signed_decimal};
ghost use Rattle.capnp_records.specs.Text.{debug_pieces, said_text};
ghost use Rattle.capnp_dynamic_readers.specs.declared.walk.output.Stop.TheVariants.{TooLong};
ghost use Rattle.capnp_dynamic_readers.specs.Pieces.{Taken, Untold, Within, made_bytes, made_text, stopped_kind};
ghost use Rattle.capnp_dynamic_readers.specs.Steps.Pieces.{IsFull, IsPut, IsStopped};

use capnp_wire::error::{Error, ErrorKind};
use std::alloc::Global;
use std::fmt;

/// A place that takes a text piece by piece.
pub trait Out {
    // What it has taken and how much it may take, where that is said.
    ghost text: { Self → Taken };

    /// Appends a piece.
    fn put(&mut self, piece: &str) -> Result<(), Stop>
        ensures put { OnOk result (IsPut (text self.old) (said_text piece.now) (text self.new)) }
        ensures stopped { IfErr result (IsStopped (text self.old) (said_text piece.now)) };

    /// Appends the debug form of a string.
    fn put_debug(&mut self, piece: &str) -> Result<(), Stop>
        ensures put { OnOk result (IsPut (text self.old) (Ok (debug_pieces piece.now)) (text self.new)) }
        ensures stopped { IfErr result (IsStopped (text self.old) (Ok (debug_pieces piece.now))) };

    /// Appends a number in decimal.
    fn put_unsigned(&mut self, number: u64) -> Result<(), Stop>
        ensures put { OnOk result (IsPut (text self.old) (said_text (decimal number)) (text self.new)) }
        ensures stopped { IfErr result (IsStopped (text self.old) (said_text (decimal number))) };

    /// Appends a number in decimal, with its sign where it is negative.
    fn put_signed(&mut self, number: i64) -> Result<(), Stop>
        ensures put { OnOk result (IsPut (text self.old) (said_text (signed_decimal number)) (text self.new)) }
        ensures stopped { IfErr result (IsStopped (text self.old) (said_text (signed_decimal number))) };
}

/// A string that is being made, and how many bytes it may have.
#[derive(Drop)]
pub struct Made {
    /// What it has.
    pub text: String,
    /// How many bytes it may have.
    pub limit: u64,
}

impl Made {
    /// An empty string.
    pub(crate) fn new(alloc: Global, limit: u64) -> Made
        ensures { made_text result ≡ Within limit [] }
    {
        Made {
            text: String::new(alloc),
            limit,
        }
    }

    /// Refused with `TooLong` where it may not have so many bytes more.
    pub fn allow(&self, more: usize) -> Result<(), Stop>
        ensures allowed { OnOk result (length (made_bytes self.now) + more ≤ self.now.limit) }
        ensures too_long { IfErr result (λ stop. (stop ≡ TooLong) × (self.now.limit < length (made_bytes self.now) + more)) }
    {
        let count = self.text.len() as u64;
        if count > self.limit {
            return Err(Stop::TooLong);
        }
        if more as u64 > self.limit - count {
            return Err(Stop::TooLong);
        }
        Ok(())
    }

    /// Appends the whole text to another string, or leaves that as it was. A string without text takes this one over,
    /// so that no second one is made. Refused where there is no room.
    pub(crate) fn append_to(self, out: &mut String) -> Result<(), Stop>
        ensures appended { OnOk result (string_bytes out.new ≡ string_bytes out.old ++ made_bytes self) }
        ensures unchanged { OnErr result (string_bytes out.new ≡ string_bytes out.old) }
        ensures full { IfErr result IsFull }
    {
        if out.is_empty() {
            *out = self.text;
            return Ok(());
        }
        match out.push_str(self.text.as_str()) {
            Ok(()) => Ok(()),
            Err(_) => Err(Stop::Full),
        }
    }
}

impl Out for Made {
    ghost text = { made_text };

    fn put(&mut self, piece: &str) -> Result<(), Stop> {
        self.allow(piece.len())?;
        match self.text.push_str(piece) {
            Ok(()) => Ok(()),
            Err(_) => Err(Stop::Full),
        }
    }

    // A form has at least the bytes of its string. Of what stands before a form past ASCII, `write!` says nothing: such a
    // form is made apart.
    fn put_debug(&mut self, piece: &str) -> Result<(), Stop> {
        self.allow(piece.len())?;
        if piece.is_ascii() {
            return match write!(self.text, "{piece:?}") {
                Ok(()) => self.allow(0),
                Err(_) => Err(Stop::Full),
            };
        }
        let mut form = String::new(*self.text.allocator());
        let Ok(()) = write!(form, "{piece:?}") else {
            return Err(Stop::Full);
        };
        let form = form.as_str();
        self.allow(form.len())?;
        match self.text.push_str(form) {
            Ok(()) => Ok(()),
            Err(_) => Err(Stop::Full),
        }
    }

    fn put_unsigned(&mut self, number: u64) -> Result<(), Stop> {
        match write!(self.text, "{number}") {
            Ok(()) => self.allow(0),
            Err(_) => Err(Stop::Full),
        }
    }

    fn put_signed(&mut self, number: i64) -> Result<(), Stop> {
        match write!(self.text, "{number}") {
            Ok(()) => self.allow(0),
            Err(_) => Err(Stop::Full),
        }
    }
}

impl<W: fmt::Write> Out for fmt::Formatter<W> {
    ghost text = { λ _. Untold };

    #[tactic(auto, using(crate::proofs::Pieces::untold))]
    fn put(&mut self, piece: &str) -> Result<(), Stop> {
        Stop::from_fmt(self.write_str(piece))
    }

    #[tactic(auto, using(crate::proofs::Pieces::untold))]
    fn put_debug(&mut self, piece: &str) -> Result<(), Stop> {
        Stop::from_fmt(write!(self, "{piece:?}"))
    }

    #[tactic(auto, using(crate::proofs::Pieces::untold))]
    fn put_unsigned(&mut self, number: u64) -> Result<(), Stop> {
        Stop::from_fmt(write!(self, "{number}"))
    }

    #[tactic(auto, using(crate::proofs::Pieces::untold))]
    fn put_signed(&mut self, number: i64) -> Result<(), Stop> {
        Stop::from_fmt(write!(self, "{number}"))
    }
}

/// Why a printer stopped.
#[derive(Drop)]
pub enum Stop {
    /// What is printed has no text.
    Refused(Error),
    /// The place takes no more.
    Full,
    /// The text is longer than it may be.
    TooLong,
}

impl Stop {
    /// What comes of a formatter.
    fn from_fmt(taken: fmt::Result) -> Result<(), Stop>
        ensures { IfErr result IsFull }
    {
        match taken {
            Ok(()) => Ok(()),
            Err(_) => Err(Stop::Full),
        }
    }
}

impl From<Stop> for Error {
    ghost from_gives = { λ stop error. error.kind ≡ stopped_kind stop };

    fn from(stop: Stop) -> Error {
        match stop {
            Stop::Refused(error) => error,
            Stop::Full => Error::from(ErrorKind::OutOfMemory),
            Stop::TooLong => Error::from(ErrorKind::TooLarge),
        }
    }
}
