ghost use Rattle.std.specs.Prelude.{◌≡◌};

use flash_names::Key;
use std::cmp::Ordering;
use std::hash::{Hash, Hasher};
use std::marker::Model;

// A key by which a table finds its entries.
#[derive(Drop)]
pub struct MapKey {
    key: Key,
}

impl Model for MapKey {
    ghost use Rattle.std.specs.Prelude.{ℕ, List};

    ghost Value = { List ℕ };

    ghost view = { λ k. k.key };
}

impl PartialEq for MapKey {
    ghost use Rattle.std.specs.Str.{bytes_eq};
    ghost use Rattle.std.specs.Cmp.{decided, partial_equiv_from_equiv};
    ghost use Rattle.std.proofs.lemmas.Slice.Eq.{bytes_eq-Decides};

    ghost eq = { λ a b. bytes_eq a b };

    ghost laws = { partial_equiv_from_equiv (decided bytes_eq bytes_eq-Decides) };

    fn eq(&self, other: &MapKey) -> bool {
        self.key.bytes() == other.key.bytes()
    }
}

impl Eq for MapKey {
    ghost use Rattle.std.specs.Str.{bytes_eq};
    ghost use Rattle.std.specs.Cmp.{decided};
    ghost use Rattle.std.proofs.lemmas.Slice.Eq.{bytes_eq-Decides};

    ghost laws = { decided bytes_eq bytes_eq-Decides };
}

impl Ord for MapKey {
    ghost use Rattle.std.specs.Ordering.{nat_cmp};
    ghost use Rattle.std.specs.Cmp.Lexicographic.{slice_cmp, nat_list_cmp_total};
    ghost use Rattle.std.proofs.Common.{refl, sym};
    ghost use Rattle.std.proofs.lemmas.Map.Text.{is_eq-slice_cmp};

    ghost cmp = { λ a b. slice_cmp nat_cmp a b };

    ghost total = { nat_list_cmp_total };

    ghost matches_partial_cmp = { λ a b. refl };

    ghost matches_eq = { λ a b. sym (is_eq-slice_cmp a b) };

    fn cmp(&self, other: &MapKey) -> Ordering {
        self.key.bytes().cmp(other.key.bytes())
    }
}

impl PartialOrd for MapKey {
    ghost use Rattle.std.specs.Prelude.{Some};
    ghost use Rattle.std.specs.Ordering.{nat_cmp};
    ghost use Rattle.std.specs.Cmp.{partial_order_from_agreeing_total};
    ghost use Rattle.std.specs.Cmp.Lexicographic.{slice_cmp, nat_list_cmp_total};
    ghost use Rattle.std.proofs.Common.{refl, sym};
    ghost use Rattle.std.proofs.lemmas.Map.Text.{is_eq-slice_cmp};

    ghost partial_cmp = { λ a b. Some (slice_cmp nat_cmp a b) };

    ghost laws = { partial_order_from_agreeing_total (λ a b. slice_cmp nat_cmp a b) nat_list_cmp_total (λ a b. refl) (λ a b. sym (is_eq-slice_cmp a b)) };

    fn partial_cmp(&self, other: &MapKey) -> Option<Ordering> {
        Some(self.cmp(other))
    }
}

impl Hash for MapKey {
    ghost use Rattle.std.specs.Hash as fed;
    ghost use Rattle.std.proofs.Common.{ap};
    ghost use Rattle.std.proofs.lemmas.Slice.Eq.{bytes_eq-Decides};

    ghost hash_input = { λ a. fed.slice fed.u8 a };

    ghost respects_eq = { λ a b same. ap (fed.slice fed.u8) ((bytes_eq-Decides a b).0 same) };

    fn hash<H: Hasher>(&self, state: &mut H) {
        self.key.bytes().hash(state);
    }
}

impl MapKey {
    pub fn key(&self) -> &Key
        ensures { result.now ≡ self.now }
    {
        &self.key
    }

    pub fn of(key: &Key) -> MapKey
        ensures { result ≡ key.now }
    {
        MapKey { key: key.copy() }
    }
}
