//! Laws of texts.
ghost use Rattle.std.specs.Prelude.{◌≡◌, ℕ, List};
ghost use Rattle.stable_store.specs.Stored.{Stored};
ghost use Rattle.store_texts.specs.Arrays.{AreStoreTexts, array_of};
ghost use Rattle.store_texts.specs.Texts.{AreStoresIn};

/// Bytes are the array of one list of contents at most.
pub fn one_reading()
    ensures { (bytes : List ℕ) (a b : List Stored) → AreStoresIn bytes a → AreStoresIn bytes b
        → a ≡ b }
{}

/// The array of the texts of contents is the array of these contents.
pub fn read_back()
    ensures { (texts : List (List ℕ)) (contents : List Stored) → AreStoreTexts texts contents
        → AreStoresIn (array_of texts) contents }
{}
