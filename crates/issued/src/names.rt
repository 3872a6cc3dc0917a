ghost use Rattle.std.specs.Prelude.{◌≡◌, [], Some, None, MatchOption};
ghost use Rattle.issued.specs.Meant.{fields_of};
ghost use Rattle.issued.specs.Widths.{named, names, texts};

use super::table::ROWS;
use super::tag::Tag;

// The names of the fields, row by row; they stand apart, since the table is to be one array of plain rows.
const NAMES: [&'static str; ROWS] = [
    // AIMIDB
    "ACQUISITION_DATE",
    "MISSION_NO",
    "MISSION_IDENTIFICATION",
    "FLIGHT_NO",
    "OP_NUM",
    "CURRENT_SEGMENT",
    "REPRO_NUM",
    "REPLAY",
    "(reserved-001)",
    "START_TILE_COLUMN",
    "START_TILE_ROW",
    "END_SEGMENT",
    "END_TILE_COLUMN",
    "END_TILE_ROW",
    "COUNTRY",
    "(reserved-002)",
    "LOCATION",
    "(reserved-003)",
    // STDIDC
    "ACQUISITION_DATE",
    "MISSION",
    "PASS",
    "OP_NUM",
    "START_SEGMENT",
    "REPRO_NUM",
    "REPLAY_REGEN",
    "BLANK_FILL",
    "START_COLUMN",
    "START_ROW",
    "END_SEGMENT",
    "END_COLUMN",
    "END_ROW",
    "COUNTRY",
    "WAC",
    "LOCATION",
    "reserved",
    "reserved",
    // ACFTB
    "AC_MSN_ID",
    "AC_TAIL_NO",
    "AC_TO",
    "SENSOR_ID_TYPE",
    "SENSOR_ID",
    "SCENE_SOURCE",
    "SCNUM",
    "PDATE",
    "IMHOSTNO",
    "IMREQID",
    "MPLAN",
    "ENTLOC",
    "LOC_ACCY",
    "ENTELV",
    "ELV_UNIT",
    "EXITLOC",
    "EXITELV",
    "TMAP",
    "ROW_SPACING",
    "ROW_SPACING_UNITS",
    "COL_SPACING",
    "COL_SPACING_UNITS",
    "FOCAL_LENGTH",
    "SENSERIAL",
    "ABSWVER",
    "CAL_DATE",
    "PATCH_TOT",
    "MTI_TOT",
];

// The names of a tag's fields, if it is known.
fn names_of(tag: &[u8]) -> Option<&'static [&'static str]>
    ensures { MatchOption result (fields_of tag.now ≡ []) (λ ts. texts ts.now ≡ names (fields_of tag.now)) }
{
    let known = Tag::of(tag)?;
    Some(&NAMES[known.first()..known.end()])
}

// The published name of a tag's field, by its name number.
pub fn field_name(tag: &[u8], number: u16) -> Option<&'static str>
    ensures { MatchOption result (named (fields_of tag.now) number ≡ None) (λ name. named (fields_of tag.now) number ≡ Some name.now) }
{
    names_of(tag)?.get(number as usize).copied()
}
