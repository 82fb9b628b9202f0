// The words of calls, registers and job types, each a closed list.
ghost use Rattle.entries.specs.Calls.{calls, call_text};
ghost use Rattle.entries.specs.CallLaws.{call_words};
ghost use Rattle.entries.specs.HeaderWords.{registers, register_text, job_kinds, job_text};
ghost use Rattle.entries.specs.HeaderWordLaws.{register_words, job_words};

use crate::entry::Call;
use crate::header::{JobKind, Register};
use jobs::check::Check;
use jobs::job::Job;
use jobs::span::Span;
use text::spelled::Listed;

impl Listed for Call {
    ghost values = { calls };

    ghost text = { call_text };

    ghost laws = { call_words };

    fn all() -> &'static [Call] {
        &[Call::Put, Call::Take, Call::Steal]
    }

    fn word(&self) -> &'static [u8] {
        match self {
            Call::Put => b"put",
            Call::Take => b"take",
            Call::Steal => b"steal",
        }
    }
}

impl Listed for Register {
    ghost values = { registers };

    ghost text = { register_text };

    ghost laws = { register_words };

    fn all() -> &'static [Register] {
        &[Register::Word, Register::Tree, Register::Range]
    }

    fn word(&self) -> &'static [u8] {
        match self {
            Register::Word => b"word",
            Register::Tree => b"tree",
            Register::Range => b"range",
        }
    }
}

// A job type's word is its name.
impl Listed for JobKind {
    ghost values = { job_kinds };

    ghost text = { job_text };

    ghost laws = { job_words };

    fn all() -> &'static [JobKind] {
        &[JobKind::Check, JobKind::Span]
    }

    fn word(&self) -> &'static [u8] {
        match self {
            JobKind::Check => Check::words().name,
            JobKind::Span => Span::words().name,
        }
    }
}
