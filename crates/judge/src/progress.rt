// How far a judge has come.
ghost use Rattle.std.specs.Prelude.{◌≡◌, Decides};
ghost use Rattle.judge.specs.Calls.{start, opened, IsOut, joined, settled};

use crate::triple::Triple;

// What is known of the overlap whose ticket is out: it was opened, and maybe shown to join.
#[derive(Clone, Copy, PartialEq, Eq, Debug)]
pub enum Stage {
    Opened,
    Shown,
}

// The overlap that was opened last; its stage while its ticket is out, and None if no ticket is; and the first overlap that was settled unshown.
#[derive(Clone, Copy)]
pub struct Progress {
    pub(crate) last: Option<Triple>,
    pub(crate) ticket: Option<Stage>,
    pub(crate) unjoined: Option<Triple>,
}

impl Progress {
    // No overlap is opened yet.
    pub(crate) fn start() -> Progress
        ensures { result ≡ start }
    {
        Progress {
            last: None,
            ticket: None,
            unjoined: None,
        }
    }

    // The overlap t is opened, and its ticket is out.
    pub(crate) fn opened(&self, t: Triple) -> Progress
        ensures { result ≡ opened self.now t }
    {
        Progress {
            last: Some(t),
            ticket: Some(Stage::Opened),
            ..*self
        }
    }

    // Whether the ticket that is out names the triple.
    pub(crate) fn is_out(&self, t: &Triple) -> bool
        ensures { Decides result (IsOut self.now t.now) }
    {
        self.ticket.is_some() && self.last == Some(*t)
    }

    // The overlap that is out has been shown to join.
    pub(crate) fn joined(&self) -> Progress
        ensures { result ≡ joined self.now }
    {
        Progress {
            ticket: Some(Stage::Shown),
            ..*self
        }
    }

    // The overlap t, whose ticket was out, is settled: joined if it was shown, else left open.
    pub(crate) fn settled(&self, t: Triple) -> Progress
        ensures { result ≡ settled self.now t }
    {
        let unjoined = match self.ticket {
            Some(Stage::Shown) => self.unjoined,
            _ => self.unjoined.or(Some(t)),
        };
        Progress {
            ticket: None,
            unjoined,
            ..*self
        }
    }
}
