//! The promises of `pg_cert`, said again of calls of it: the edits of `must-fail` turn each answer,
//! and every one must be refused.
#![tactic(auto)]

ghost use Rattle.std.specs.Prelude.{◌≡◌, ◌⊎◌, length, nat_eq, slice_get, string_bytes, option_map, true, false, IfErr, IfOk, OnOk};
ghost use Rattle.std.specs.Option.{option_copied};
ghost use Rattle.pg_cert.specs.declared.bounds.BoundsError.TheVariants.{Invariant};
ghost use Rattle.pg_cert.specs.declared.error.CertError.TheVariants as errors;
ghost use Rattle.pg_cert.specs.Certificate.{are_bounds, bound_in, Claim};
ghost use Rattle.pg_cert.specs.Witness.{AreBytes, is_witness};
ghost use Rattle.pg_cert.specs.Verdict.{verdict_of};
ghost use Rattle.pg_cert.specs.ClaimView.{HoldsOf, IsFirstFaultOf, SaysOf};
ghost use Rattle.pg_cert.specs.Codes.{code_of};
ghost use Rattle.pg_cert.specs.Text as spec;

use pg_cert::{Bounds, BoundsError, CertError, Certificate, PairBound, Verdict};
use pg_dyn::ViewName;
use pg_pairs::{Pair, Table};
use pg_schema::Schema;
use std::alloc::{AllocError, AllocFailed, Global};

/// What `check` answers.
pub fn check(
    alloc: Global,
    old: &Schema,
    new: &Schema,
    certificate: &Certificate,
) -> Result<Verdict, CertError>
    ensures holds { OnOk result (HoldsOf old.now new.now certificate.now) }
    ensures verdict { IfOk result (λ verdict. verdict ≡ verdict_of certificate.now) }
    ensures says { IfOk result (SaysOf old.now new.now certificate.now) }
    ensures first_fault { IfErr result
        (λ e. (e ≡ errors.Memory) ⊎ IsFirstFaultOf old.now new.now certificate.now e) }
    ensures refused { IfErr result
        (λ e. (e ≡ errors.Memory) ⊎ ¬ (HoldsOf old.now new.now certificate.now)) }
{
    pg_cert::check(alloc, old, new, certificate)
}

/// What `from_text` answers.
pub fn from_text(
    alloc: Global,
    old: &Schema,
    new: &Schema,
    bytes: &[u8],
) -> Result<Certificate, CertError>
    ensures certifies { IfOk result (λ c. spec.Certifies old.now new.now bytes.now c) }
    ensures alone { IfOk result (λ c. (claim : Claim)
        → spec.Certifies old.now new.now bytes.now claim → c ≡ claim) }
    ensures refused { IfErr result (λ e. (e ≡ errors.Memory)
        ⊎ ((e ≡ errors.BadText) × ((claim : Claim)
        → ¬ (spec.Certifies old.now new.now bytes.now claim)))) }
{
    pg_cert::from_text(alloc, old, new, bytes)
}

/// What `to_text` answers.
pub fn to_text(
    alloc: Global,
    old: &Schema,
    new: &Schema,
    certificate: &Certificate,
) -> Result<String, AllocError>
    requires { spec.IsClaimOf old.now new.now certificate.now }
    ensures certifies { IfOk result (λ text. spec.Certifies old.now new.now
        (string_bytes text) certificate.now) }
    ensures second { IfOk result (λ text. spec.IsSecondText old.now new.now
        (string_bytes text) certificate.now) }
{
    pg_cert::to_text(alloc, old, new, certificate)
}

/// What `to_text` answers of the certificate that `from_text` reads: the bytes may spell it in any
/// version, and it is written in version 2. Bytes are refused only where they spell none.
pub fn text_again(
    alloc: Global,
    old: &Schema,
    new: &Schema,
    bytes: &[u8],
) -> Result<String, CertError>
    ensures text { IfOk result (λ text. (claim : Claim)
        × spec.Certifies old.now new.now bytes.now claim
        × spec.IsSecondText old.now new.now (string_bytes text) claim) }
    ensures refused { IfErr result (λ e. (e ≡ errors.Memory)
        ⊎ ((e ≡ errors.BadText) × ((claim : Claim)
        → ¬ (spec.Certifies old.now new.now bytes.now claim)))) }
{
    let certificate = from_text(alloc, old, new, bytes)?;
    let text = to_text(alloc, old, new, &certificate)?;
    Ok(text)
}

/// What `Certificate::new` answers.
pub fn certificate(
    view: ViewName,
    root: Pair,
    bounds: Bounds,
    witness: Option<Vec<u8>>,
) -> Result<Certificate, (Bounds, Option<Vec<u8>>)>
    ensures claim { IfOk result (λ c. c
        ≡ record {
          view = view;
          root = root;
          bounds = bounds;
          witness = option_map (λ bytes. bytes.items) witness;
        }) }
    ensures back { IfErr result (λ refused. refused ≡ (bounds, witness)) }
    ensures empty { IfErr result (λ _. is_witness (option_map (λ bytes. bytes.items) witness)
        ≡ false) }
{
    Certificate::new(view, root, bounds, witness)
}

/// What `Certificate::view` answers.
pub fn view(certificate: &Certificate) -> ViewName
    ensures { result ≡ certificate.now.view }
{
    certificate.view()
}

/// What `Certificate::root` answers.
pub fn root(certificate: &Certificate) -> Pair
    ensures root { result ≡ certificate.now.root }
    ensures checked { are_bounds certificate.now.bounds ≡ true }
    ensures witnessed { is_witness certificate.now.witness ≡ true }
{
    certificate.root()
}

/// What `Certificate::bounds` lends of the first of two certificates.
pub fn bounds<'a>(certificate: &'a Certificate, _other: &'a Certificate) -> &'a Bounds
    ensures { result.now ≡ certificate.now.bounds }
{
    certificate.bounds()
}

/// What `Certificate::witness` lends.
pub fn witness(certificate: &Certificate) -> Option<&[u8]>
    ensures witness { option_copied result ≡ certificate.now.witness }
    ensures bytes { AreBytes certificate.now.witness }
{
    certificate.witness()
}

/// What `Bounds::new` answers.
pub fn table(alloc: Global, bounds: Vec<PairBound>) -> Result<Bounds, (BoundsError, Vec<PairBound>)>
    ensures table { IfOk result (λ table. table ≡ bounds.items) }
    ensures checked { IfOk result (λ table. are_bounds table ≡ true) }
    ensures back { IfErr result (λ refused. refused.1 ≡ bounds) }
    ensures broken { IfErr result (λ refused. refused.0 ≡ Invariant
        → are_bounds bounds.items ≡ false) }
{
    Bounds::new(alloc, bounds)
}

/// What `Bounds::len` answers.
pub fn len(bounds: &Bounds) -> usize
    ensures len { result ≡ length bounds.now }
    ensures checked { are_bounds bounds.now ≡ true }
{
    bounds.len()
}

/// What `Bounds::is_empty` answers.
pub fn is_empty(bounds: &Bounds) -> bool
    ensures { result ≡ nat_eq (length bounds.now) 0 }
{
    bounds.is_empty()
}

/// What `Bounds::get` answers.
pub fn get(bounds: &Bounds, at: usize) -> Option<PairBound>
    ensures { result ≡ slice_get bounds.now at }
{
    bounds.get(at)
}

/// The bound of a pair in a table.
pub fn bound(bounds: &Bounds, pair: Pair) -> Option<Option<u32>>
    ensures { result ≡ bound_in bounds.now pair }
{
    bounds.bound(pair)
}

/// What `CertError::code` answers.
pub fn code(error: CertError) -> u16
    ensures { result ≡ code_of error }
{
    error.code()
}

/// What `CertError::from` answers of a refused growth.
pub fn error_of(error: AllocError) -> CertError
    ensures { result ≡ errors.Memory }
{
    CertError::from(error)
}

/// What `CertError::from` answers of a refused growth that hands back a value.
pub fn error_of_failed<T: Drop>(failed: AllocFailed<T>) -> CertError
    ensures { result ≡ errors.Memory }
{
    CertError::from(failed)
}
