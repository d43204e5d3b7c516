//! Writers of what is asked beside one key, and of what is answered.
ghost use Rattle.std.specs.Prelude.{◌≡◌, ◌<◌, ◌≤◌, ◌^◌, ◌++◌, length, OnOk};
ghost use Rattle.std.specs.List.{flat_map, AllByRecursion};
ghost use Rattle.std.specs.Option.{IfSome};
ghost use Rattle.bayou_lang.specs.Ranges.{AreAtMost, IsKey};
ghost use Rattle.bayou_wire.specs.declared.layout.TheConstants.{ROWS_AT_ONCE};
ghost use Rattle.bayou_wire.specs.Lookups.{IsBecame, IsFate, IsFateAsked, IsPage, IsPlaced, IsRow, IsRowsAsked, became_bytes, fate_asked_bytes, fate_bytes, more_bytes, optional_key_bytes, page_bytes, placed_bytes, row_bytes, rows_asked_bytes, rows_bytes, u16_bytes};

use crate::layout::*;
use crate::lookup::{Became, Fate, FateAsked, Page, Placed, RowsAsked};
use crate::put::{put_code, put_key, put_prefix, put_u32, put_value, put_vector, put_wid};
use bayou_base::{Key, Value};
use std::alloc::AllocError;

fn put_u16(out: &mut Vec<u8>, number: u16) -> Result<(), AllocError>
    ensures { OnOk result ((number < 2 ^ 16) × (out.new.items ≡ out.old.items ++ u16_bytes number)) }
{
    out.extend_from_slice(&number.to_be_bytes())
}

pub(crate) fn put_optional_key(out: &mut Vec<u8>, key: &Option<Key>) -> Result<(), AllocError>
    ensures { OnOk result (IfSome key.now IsKey × (out.new.items ≡ out.old.items ++ optional_key_bytes key.now)) }
{
    match key {
        None => put_code(out, 0),
        Some(key) => put_key(out, key),
    }
}

fn put_row(out: &mut Vec<u8>, row: &(Key, Value)) -> Result<(), AllocError>
    ensures { OnOk result (IsRow row.now × (out.new.items ≡ out.old.items ++ row_bytes row.now)) }
{
    put_key(out, &row.0)?;
    put_value(out, &row.1)
}

fn put_each_row(out: &mut Vec<u8>, rows: &[(Key, Value)]) -> Result<(), AllocError>
    ensures { OnOk result (AllByRecursion IsRow rows.now × (out.new.items ≡ out.old.items ++ flat_map row_bytes rows.now)) }
{
    for row in rows {
        put_row(out, row)?;
    }
    Ok(())
}

fn put_rows(out: &mut Vec<u8>, rows: &[(Key, Value)]) -> Result<(), AllocError>
    requires { length rows.now ≤ ROWS_AT_ONCE }
    ensures { OnOk result (AreAtMost ROWS_AT_ONCE IsRow rows.now × (out.new.items ≡ out.old.items ++ rows_bytes rows.now)) }
{
    put_u16(out, rows.len() as u16)?;
    put_each_row(out, rows)
}

fn put_more(out: &mut Vec<u8>, more: bool) -> Result<(), AllocError>
    ensures { OnOk result (out.new.items ≡ out.old.items ++ more_bytes more) }
{
    if more {
        put_code(out, MORE_LEFT)
    } else {
        put_code(out, NONE_LEFT)
    }
}

pub(crate) fn put_rows_asked(out: &mut Vec<u8>, asked: &RowsAsked) -> Result<(), AllocError>
    ensures { OnOk result (IsRowsAsked asked.now × (out.new.items ≡ out.old.items ++ rows_asked_bytes asked.now)) }
{
    put_vector(out, &asked.need)?;
    put_prefix(out, &asked.prefix)?;
    put_optional_key(out, &asked.after)?;
    put_u16(out, asked.most)
}

pub(crate) fn put_page(out: &mut Vec<u8>, page: &Page) -> Result<(), AllocError>
    ensures { OnOk result (IsPage page.now × (out.new.items ≡ out.old.items ++ page_bytes page.now)) }
{
    put_vector(out, &page.vector)?;
    put_more(out, page.more)?;
    put_rows(out, page.rows.as_slice())
}

fn put_became(out: &mut Vec<u8>, became: Became) -> Result<(), AllocError>
    ensures { OnOk result (IsBecame became × (out.new.items ≡ out.old.items ++ became_bytes became)) }
{
    match became {
        Became::Updated => put_code(out, WAS_UPDATED),
        Became::Merged(alternative) => {
            put_code(out, WAS_MERGED)?;
            put_code(out, alternative)
        }
        Became::Nothing => put_code(out, WAS_NOTHING),
    }
}

fn put_placed(out: &mut Vec<u8>, placed: &Option<Placed>) -> Result<(), AllocError>
    ensures { OnOk result (IfSome placed.now IsPlaced × (out.new.items ≡ out.old.items ++ placed_bytes placed.now)) }
{
    match placed {
        None => put_code(out, NOT_HELD),
        Some(placed) => {
            put_became(out, placed.became)?;
            put_u32(out, placed.clock)
        }
    }
}

pub(crate) fn put_fate_asked(out: &mut Vec<u8>, asked: &FateAsked) -> Result<(), AllocError>
    ensures { OnOk result (IsFateAsked asked.now × (out.new.items ≡ out.old.items ++ fate_asked_bytes asked.now)) }
{
    put_vector(out, &asked.need)?;
    put_wid(out, asked.wid)
}

pub(crate) fn put_fate(out: &mut Vec<u8>, fate: &Fate) -> Result<(), AllocError>
    ensures { OnOk result (IsFate fate.now × (out.new.items ≡ out.old.items ++ fate_bytes fate.now)) }
{
    put_vector(out, &fate.vector)?;
    put_placed(out, &fate.placed)
}
