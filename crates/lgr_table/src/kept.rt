//! Which sources and variants of a file a table keeps.
ghost use Rattle.std.specs.Prelude.{◌≡◌, IfOk};
ghost use Rattle.lgr_text.specs.Records.{variant as variant_of};
ghost use Rattle.lgr_text.specs.Repertoire as words;
ghost use Rattle.lgr_table.specs.Tables.{may_stand as may_stand_by};

use idn_class::Properties;
use lgr_text::Variant;
use ruleset_text::is_bad_point;
use std::alloc::{AllocError, Global};

/// Whether a table may hold each of these code points.
pub(crate) fn may_be(
    alloc: Global,
    properties: Properties,
    points: &[u32],
) -> Result<bool, AllocError>
    ensures { IfOk result (λ may. may ≡ words.may_be (may_stand_by properties) points.now) }
{
    for point in points {
        if is_bad_point(alloc, properties, *point)? {
            return Ok(false);
        }
    }
    Ok(true)
}

/// Whether a variant is its source.
pub(crate) fn is_reflexive(source: &[u32], variant: &Variant) -> bool
    ensures { result ≡ words.is_reflexive source.now (variant_of variant.now) }
{
    variant.points.as_slice() == source
}
