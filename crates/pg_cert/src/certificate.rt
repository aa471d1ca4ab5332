//! Certificates.

ghost use Rattle.std.specs.Prelude.{◌≡◌, Some, true, false, option_map, IfErr, IfOk};
ghost use Rattle.std.specs.Option.{option_copied};
ghost use Rattle.pg_cert.specs.Certificate.{are_bounds};
ghost use Rattle.pg_cert.specs.Witness.{AreBytes, is_witness};

use crate::bounds::Bounds;
use pg_dyn::ViewName;
use pg_pairs::Pair;
use std::marker::Model;

/// What a gate hands out for a pair of root types: the name of the view under which enums are
/// compared, bounds of pairs, and where the root's bound is a number a breaking message of just so
/// many bytes. Contracts see the parts.
#[derive(Drop)]
pub struct Certificate {
    view: ViewName,
    root: Pair,
    bounds: Bounds,
    witness: Option<Vec<u8>>,
}

impl Model for Certificate {
    ghost use Rattle.std.specs.Prelude.{◌≡◌, true, option_map};
    ghost use Rattle.pg_cert.specs.Certificate.{are_bounds, Claim};
    ghost use Rattle.pg_cert.specs.Witness.{is_witness};

    ghost Value = { Claim };

    ghost view = { λ c. record {
      view = c.view;
      root = c.root;
      bounds = c.bounds;
      witness = option_map (λ bytes. bytes.items) c.witness;
    } };

    ghost invariant = { λ c. (are_bounds c.bounds ≡ true)
        × (is_witness (option_map (λ bytes. bytes.items) c.witness) ≡ true) };
}

/// What holds of every slice of bytes.
fn lend(bytes: &[u8]) -> &[u8]
    ensures value { result.now ≡ bytes.now }
    ensures bytes { AreBytes (Some result.now) }
{
    bytes
}

impl Certificate {
    /// The certificate of these parts, `None` for no witness. A witness has at least one byte; the
    /// bounds and the witness come back just where it has none.
    pub fn new(
        view: ViewName,
        root: Pair,
        bounds: Bounds,
        witness: Option<Vec<u8>>,
    ) -> Result<Certificate, (Bounds, Option<Vec<u8>>)>
        ensures claim { IfOk result (λ c. c
            ≡ record {
              view = view;
              root = root;
              bounds = bounds;
              witness = option_map (λ bytes. bytes.items) witness;
            }) }
        ensures back { IfErr result (λ refused. refused ≡ (bounds, witness)) }
        ensures empty { IfErr result
            (λ _. is_witness (option_map (λ bytes. bytes.items) witness) ≡ false) }
    {
        // What holds of every table.
        bounds.len();
        if let Some(bytes) = &witness {
            if bytes.is_empty() {
                return Err((bounds, witness));
            }
        }
        Ok(Certificate {
            view,
            root,
            bounds,
            witness,
        })
    }

    /// The name of the view under which enums are compared.
    pub fn view(&self) -> ViewName
        ensures { result ≡ self.now.view }
    {
        self.view
    }

    /// The pair of root types.
    pub fn root(&self) -> Pair
        ensures root { result ≡ self.now.root }
        ensures checked { are_bounds self.now.bounds ≡ true }
        ensures witnessed { is_witness self.now.witness ≡ true }
    {
        self.root
    }

    /// The bounds of pairs.
    pub fn bounds(&self) -> &Bounds
        ensures { result.now ≡ self.now.bounds }
    {
        &self.bounds
    }

    /// The bytes of a breaking message; `None` where there is none in it.
    pub fn witness(&self) -> Option<&[u8]>
        ensures witness { option_copied result ≡ self.now.witness }
        ensures bytes { AreBytes self.now.witness }
    {
        match &self.witness {
            Some(bytes) => Some(lend(bytes)),
            None => None,
        }
    }
}
