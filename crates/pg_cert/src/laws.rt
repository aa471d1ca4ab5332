//! Laws about the definitions. Each is the contract of a function that does nothing.

ghost use Rattle.pg_cert.specs.laws.CertificateLaws.{CoversWithoutFault, OneSpelling, OneTextInEachVersion, VerdictsAreTrue, WitnessFaultsAreReal};
ghost use Rattle.pg_cert.specs.laws.Worked.{WorkedCertificates};
ghost use Rattle.pg_cert.specs.laws.WorkedTexts.{WorkedTexts};

use pg_dyn::laws::{reads_again, self_compatible, worked_examples};
use pg_pairs::laws::{covering_bounds, none_is_compatible};

/// Small certificates that hold, and faults of others.
pub fn worked_certificates()
    ensures { WorkedCertificates }
{
    worked_examples();
    reads_again();
    self_compatible();
}

/// How these certificates are written, and strings with a wrong line.
pub fn worked_texts()
    ensures { WorkedTexts }
{}

/// A table covers its root exactly where it has no fault.
pub fn covers_without_fault()
    ensures { CoversWithoutFault }
{}

/// What a certificate that holds shows is true of all messages.
pub fn verdicts_are_true()
    ensures { VerdictsAreTrue }
{
    covering_bounds();
    none_is_compatible();
}

/// A string certifies one claim at most.
pub fn one_spelling()
    ensures { OneSpelling }
{}

/// A claim has one spelling in each version, and by names none in version 1.
pub fn one_text_in_each_version()
    ensures { OneTextInEachVersion }
{}

/// A witness with a fault is none.
pub fn witness_faults_are_real()
    ensures { WitnessFaultsAreReal }
{}
