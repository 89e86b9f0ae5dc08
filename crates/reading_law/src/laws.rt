//! Laws of reading. Each is a function without a body whose contract is what is proved.
ghost use Rattle.std.specs.Prelude.{ℕ, ◌≡◌, ◌<◌, ◌^◌, true, List, Some};
ghost use Rattle.pat_base.specs.declared.name.Name.{Name};
ghost use Rattle.reading_law.specs.Lines.{acknowledgement_words, at_moment, commit_words, expiry_words, is_named, named_words, one_told, refusal_words};
ghost use Rattle.run_reading.specs.declared.happening.Happening.{Happening};
ghost use Rattle.run_reading.specs.Forms.{is_tail, tail_of};
ghost use Rattle.run_reading.specs.Told.{of_nobody, told_of};
ghost use Rattle.run_reading.specs.declared.happening.Happening.TheVariants.{Commits, IsAcknowledged, IsRefused, KeyExpires};
ghost use Rattle.store_keys.specs.declared.txn_kind.TxnKind.{TxnKind};

/// A line of each form, at any moment and of any name, is read as what it tells. Its numbers have 64 bits.
pub fn each_form_is_read()
    ensures named { (tick : ℕ) (name : Name) (happening : Happening) (tail : List ℕ) → tick < 2 ^ 64 → is_named happening ≡ true → is_tail (tail_of happening) tail ≡ true → told_of (at_moment tick (named_words name happening tail)) ≡ Some (one_told tick name happening) }
    ensures expired { (tick : ℕ) (holder : Name) → tick < 2 ^ 64 → told_of (at_moment tick (expiry_words holder)) ≡ Some (one_told tick holder KeyExpires) }
    ensures refused { (tick : ℕ) (kind : TxnKind) (by : Name) (why : List ℕ) → tick < 2 ^ 64 → told_of (at_moment tick (refusal_words kind by why)) ≡ Some (one_told tick by IsRefused) }
    ensures committed { (tick serial bytes : ℕ) (server : Name) → tick < 2 ^ 64 → serial < 2 ^ 64 → bytes < 2 ^ 64 → told_of (at_moment tick (commit_words serial bytes server)) ≡ Some (of_nobody tick Commits) }
    ensures acknowledged { (tick serial : ℕ) → tick < 2 ^ 64 → serial < 2 ^ 64 → told_of (at_moment tick (acknowledgement_words serial)) ≡ Some (of_nobody tick IsAcknowledged) }
{}
