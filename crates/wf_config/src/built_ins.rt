//! The names that need no entry in the Registry: their group, whether they have a value for each
//! domain, their type, their default and their range. The names and groups are those of
//! WRF's namelist.

ghost use Rattle.std.specs.Prelude.{◌≡◌, ◌++◌, IfOk, IsTrue, OnOk, map, pos, codes};
ghost use Rattle.std.specs.List.{list_all};
ghost use Rattle.wf_model.specs.Letters.{is_name};
ghost use Rattle.wf_model.specs.BuiltIns.{built_ins, rows};
ghost use Rattle.wf_config.specs.Rules.{default_in, has_names, row_default_in, row_of, row_rule};
ghost use Rattle.wf_config.specs.Rules.{rule_of};

use crate::built_ins::RowDefault::{FirstDomainOnly, Int, No};
use crate::rule::Range::{Any, Between, MinusOneOr};
use crate::rule::ValueKind::{Integer, Logical, Real};
use crate::rule::{DefaultValue, Range, Rule, ValueKind};
use crate::words::words;
use std::alloc::{AllocError, Global};
use wf_model::{Bytes, Name, Value};

/// The default of each domain.
#[derive(Clone, Copy)]
pub(crate) enum RowDefault {
    Int(i32),
    No,
    /// True in domain 1, and false in the others.
    FirstDomainOnly,
}

/// Names that are held to the same.
#[derive(Clone, Copy)]
pub(crate) struct Row {
    /// Parted by blanks.
    pub names: &'static str,
    pub group: &'static str,
    pub each: bool,
    pub kind: ValueKind,
    pub default: RowDefault,
    pub range: Range,
}

const TIME_CONTROL: &str = "time_control";

const DOMAINS: &str = "domains";

const BDY_CONTROL: &str = "bdy_control";

const NAMELIST_QUILT: &str = "namelist_quilt";

/// A value for each domain.
const EACH: bool = true;
/// One value.
const ONCE: bool = false;

const AUXHIST_INTERVALS: &str =
    "auxhist1_interval auxhist2_interval auxhist3_interval auxhist4_interval auxhist5_interval \
     auxhist6_interval auxhist7_interval auxhist8_interval auxhist9_interval";

const FRAMES_PER_FILE: &str =
    "frames_per_outfile frames_per_auxhist1 frames_per_auxhist2 frames_per_auxhist3 \
     frames_per_auxhist4 frames_per_auxhist5 frames_per_auxhist6 frames_per_auxhist7 \
     frames_per_auxhist8 frames_per_auxhist9";

/// The table, in its order.
fn rows() -> [Row; 37]
    ensures rows { map row_of result ≡ rows }
    ensures names { IsTrue (list_all has_names result) }
{
    [
        Row {
            names: "run_days run_hours run_minutes run_seconds",
            group: TIME_CONTROL,
            each: ONCE,
            kind: Integer,
            default: Int(0),
            range: Between(0, 100000),
        },
        Row {
            names: "start_year",
            group: TIME_CONTROL,
            each: EACH,
            kind: Integer,
            default: Int(2000),
            range: Between(1, 9999),
        },
        Row {
            names: "start_month",
            group: TIME_CONTROL,
            each: EACH,
            kind: Integer,
            default: Int(1),
            range: Between(1, 12),
        },
        Row {
            names: "start_day",
            group: TIME_CONTROL,
            each: EACH,
            kind: Integer,
            default: Int(1),
            range: Between(1, 31),
        },
        Row {
            names: "start_hour",
            group: TIME_CONTROL,
            each: EACH,
            kind: Integer,
            default: Int(0),
            range: Between(0, 23),
        },
        Row {
            names: "start_minute start_second",
            group: TIME_CONTROL,
            each: EACH,
            kind: Integer,
            default: Int(0),
            range: Between(0, 59),
        },
        Row {
            names: "input_from_file",
            group: TIME_CONTROL,
            each: EACH,
            kind: Logical,
            default: FirstDomainOnly,
            range: Any,
        },
        Row {
            names: "history_interval",
            group: TIME_CONTROL,
            each: EACH,
            kind: Integer,
            default: Int(60),
            range: Between(0, 100000),
        },
        Row {
            names: AUXHIST_INTERVALS,
            group: TIME_CONTROL,
            each: EACH,
            kind: Integer,
            default: Int(0),
            range: Between(0, 100000),
        },
        Row {
            names: FRAMES_PER_FILE,
            group: TIME_CONTROL,
            each: EACH,
            kind: Integer,
            default: Int(1),
            range: Between(1, 100000),
        },
        Row {
            names: "restart",
            group: TIME_CONTROL,
            each: ONCE,
            kind: Logical,
            default: No,
            range: Any,
        },
        Row {
            names: "restart_interval",
            group: TIME_CONTROL,
            each: ONCE,
            kind: Integer,
            default: Int(0),
            range: Between(0, 1000000),
        },
        Row {
            names: "time_step",
            group: DOMAINS,
            each: ONCE,
            kind: Integer,
            default: Int(0),
            range: Between(1, 3600),
        },
        Row {
            names: "max_dom",
            group: DOMAINS,
            each: ONCE,
            kind: Integer,
            default: Int(1),
            range: Between(1, 8),
        },
        Row {
            names: "e_we e_sn",
            group: DOMAINS,
            each: EACH,
            kind: Integer,
            default: Int(0),
            range: Between(2, 2000),
        },
        Row {
            names: "e_vert",
            group: DOMAINS,
            each: EACH,
            kind: Integer,
            default: Int(0),
            range: Between(2, 128),
        },
        Row {
            names: "parent_id",
            group: DOMAINS,
            each: EACH,
            kind: Integer,
            default: Int(0),
            range: Between(0, 8),
        },
        Row {
            names: "i_parent_start j_parent_start",
            group: DOMAINS,
            each: EACH,
            kind: Integer,
            default: Int(1),
            range: Between(1, 2000),
        },
        Row {
            names: "parent_grid_ratio",
            group: DOMAINS,
            each: EACH,
            kind: Integer,
            default: Int(1),
            range: Between(1, 15),
        },
        Row {
            names: "parent_time_step_ratio",
            group: DOMAINS,
            each: EACH,
            kind: Integer,
            default: Int(1),
            range: Between(1, 16),
        },
        Row {
            names: "feedback",
            group: DOMAINS,
            each: ONCE,
            kind: Integer,
            default: Int(1),
            range: Between(0, 1),
        },
        Row {
            names: "smooth_option",
            group: DOMAINS,
            each: ONCE,
            kind: Integer,
            default: Int(0),
            range: Between(0, 0),
        },
        Row {
            names: "nproc_x nproc_y",
            group: DOMAINS,
            each: ONCE,
            kind: Integer,
            default: Int(-1),
            range: MinusOneOr(1, 2000),
        },
        Row {
            names: "numtiles",
            group: DOMAINS,
            each: ONCE,
            kind: Integer,
            default: Int(1),
            range: Between(1, 1000),
        },
        Row {
            names: "spec_bdy_width",
            group: BDY_CONTROL,
            each: ONCE,
            kind: Integer,
            default: Int(5),
            range: Between(1, 20),
        },
        Row {
            names: "periodic_x periodic_y",
            group: BDY_CONTROL,
            each: EACH,
            kind: Logical,
            default: No,
            range: Any,
        },
        Row {
            names: "nio_tasks_per_group",
            group: NAMELIST_QUILT,
            each: ONCE,
            kind: Integer,
            default: Int(0),
            range: Between(0, 16),
        },
        Row {
            names: "nio_groups",
            group: NAMELIST_QUILT,
            each: ONCE,
            kind: Integer,
            default: Int(1),
            range: Between(1, 16),
        },
        Row {
            names: "quilt_depth",
            group: NAMELIST_QUILT,
            each: ONCE,
            kind: Integer,
            default: Int(8),
            range: Between(1, 64),
        },
        Row {
            names: "io_form_history io_form_restart io_form_input io_form_boundary",
            group: TIME_CONTROL,
            each: ONCE,
            kind: Integer,
            default: Int(2),
            range: Between(2, 2),
        },
        Row {
            names: "s_we s_sn s_vert",
            group: DOMAINS,
            each: EACH,
            kind: Integer,
            default: Int(1),
            range: Between(1, 1),
        },
        Row {
            names: "time_step_fract_num",
            group: DOMAINS,
            each: ONCE,
            kind: Integer,
            default: Int(0),
            range: Between(0, 0),
        },
        Row {
            names: "end_year end_month end_day end_hour end_minute end_second",
            group: TIME_CONTROL,
            each: EACH,
            kind: Integer,
            default: Int(0),
            range: Any,
        },
        Row {
            names: "interval_seconds debug_level",
            group: TIME_CONTROL,
            each: ONCE,
            kind: Integer,
            default: Int(0),
            range: Any,
        },
        Row {
            names: "time_step_fract_den",
            group: DOMAINS,
            each: ONCE,
            kind: Integer,
            default: Int(1),
            range: Any,
        },
        Row {
            names: "grid_id",
            group: DOMAINS,
            each: EACH,
            kind: Integer,
            default: Int(1),
            range: Any,
        },
        Row {
            names: "dx dy",
            group: DOMAINS,
            each: EACH,
            kind: Real,
            default: Int(0),
            range: Any,
        },
    ]
}

fn default_of_row(default: RowDefault) -> DefaultValue
    ensures { default_in result ≡ row_default_in default }
{
    match default {
        RowDefault::Int(number) => DefaultValue::Always(Value::Int(i128::from(number))),
        RowDefault::No => DefaultValue::Always(Value::Logical(false)),
        RowDefault::FirstDomainOnly => DefaultValue::FirstDomainOnly,
    }
}

/// The rule of a name of a row.
fn row_rule(alloc: Global, row: &Row, name: &[u8]) -> Result<Rule, AllocError>
    requires { IsTrue (is_name name.now) }
    ensures { IfOk result (λ r. rule_of r ≡ row_rule row.now name.now) }
{
    Ok(Rule {
        name: Name::from_vec(Vec::from_slice(alloc, name)?),
        group: Bytes::copy_of(alloc, row.group.as_bytes())?,
        kind: row.kind,
        each: row.each,
        most: if row.each { 21 } else { 1 },
        default: default_of_row(row.default),
        range: row.range,
    })
}

/// Adds the rules of the names of a row.
fn add_row(alloc: Global, rules: &mut Vec<Rule>, row: &Row) -> Result<(), AllocError>
    requires { IsTrue (has_names row.now) }
    ensures { OnOk result
        (map rule_of rules.new.items ≡ map rule_of rules.old.items ++ row_of row.now) }
{
    let names = words(alloc, row.names.as_bytes())?;
    for name in names.as_slice() {
        rules.push(row_rule(alloc, row, name)?)?;
    }
    Ok(())
}

/// The rules of all built-in names, in order.
pub(crate) fn built_ins(alloc: Global) -> Result<Vec<Rule>, AllocError>
    ensures { IfOk result (λ v. map rule_of v.items ≡ built_ins) }
{
    let rows = rows();
    let mut rules = Vec::new(alloc);
    for row in &rows {
        add_row(alloc, &mut rules, row)?;
    }
    Ok(rules)
}
