//! What a certificate shows.
ghost use Rattle.std.specs.Prelude.{◌≡◌};
ghost use Rattle.pg_gate.specs.print.Printed.{verdict_status};

use pg_cert::Verdict;

/// What a certificate that holds shows of its root types: the full name of the old one, the
/// verdict, and how many bytes the witness has, where there is one.
#[derive(Drop)]
pub(crate) struct Verified {
    pub name: String,
    pub verdict: Verdict,
    pub length: usize,
}

impl Verified {
    /// 0 where no message breaks, 1 where one does, and 5 where the certificate gives only a lower
    /// bound on the length of one that breaks.
    pub(crate) fn status(&self) -> u8
        ensures { result ≡ verdict_status self.now.verdict }
    {
        match self.verdict {
            Verdict::Compatible => 0,
            Verdict::Breaks => 1,
            Verdict::AtLeast(_) => 5,
        }
    }
}
