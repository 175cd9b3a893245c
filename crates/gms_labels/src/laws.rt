//! Which numbers the limits of tables of labels are.
ghost use Rattle.std.specs.Prelude.{◌≡◌};
ghost use Rattle.gms_labels.specs.Labels.{most_label_bytes, most_labels};

use crate::labels::{MOST_BYTES, MOST_LABELS};

/// A label has at most 63 bytes, the constant `MOST_BYTES`, and a table at most 65,536 labels, the
/// constant `MOST_LABELS` (GAMS User's Guide, "Language Items", labels).
pub fn limit_laws()
    ensures bytes { MOST_BYTES ≡ most_label_bytes }
    ensures labels { MOST_LABELS ≡ most_labels }
{}
