//! Laws about openings that fail.
ghost use Rattle.std.specs.Prelude.{◌≡◌, ◌↔◌, None};
ghost use Rattle.uc_batch.specs.Rising.{IsRising};
ghost use Rattle.uc_version_state.specs.Openings.{Opening, MayOpen};
ghost use Rattle.uc_version_open.specs.Refusal.{opening_refusal};

/// A store of rising writes opens exactly if no reason is against it.
pub fn no_refusal_is_leave_to_open()
    ensures { (o : Opening) → IsRising 0 o.writes → (opening_refusal o ≡ None) ↔ MayOpen o }
{}
