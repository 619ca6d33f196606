//! Laws of the samples of a text, and the number behind the constant. The contract of each
//! function is the law.
ghost use Rattle.std.specs.Prelude.{◌≡◌, ℕ, ℤ, List};
ghost use Rattle.graph_lang.specs.Samples.{AreRecordsOfValues, IsBadSample};

use crate::TEXT_MAX;

/// Samples may take 67,108,864 bytes.
pub fn numbers()
    ensures text_max { TEXT_MAX ≡ 67108864 }
{}

/// A text has one list of samples, or one first bad record, and never both.
pub fn one_reading()
    ensures values { (text : List ℕ) (values others : List ℤ) → AreRecordsOfValues text values
        → AreRecordsOfValues text others → values ≡ others }
    ensures bad { (text : List ℕ) (m n : ℕ) → IsBadSample text m → IsBadSample text n → m ≡ n }
    ensures apart { (text : List ℕ) (values : List ℤ) (n : ℕ) → AreRecordsOfValues text values
        → IsBadSample text n → ⊥ }
{}
