//! What a disk says part by part.

ghost use Rattle.std.specs.Prelude.{◌≡◌, ◌≤◌, IfOk, IfErr, IfSome, IsOk, Err, MatchOption};
ghost use Rattle.std.specs.Prelude.{nat_le, false, OnOk, Some};
ghost use Rattle.vab_disk.specs.Calls.{OnlyReads};
ghost use Rattle.vab_marks.specs.Mark.{mark_of};
ghost use Rattle.vab_marks.specs.Version.{version_in};
ghost use Rattle.vab_device.specs.declared.fault.StartFault.{StartFault as Fault};
ghost use Rattle.vab_device.specs.Faults.{IsOfContents, IsOfDisk};
ghost use Rattle.vab_device.specs.Reading.{device, geometry_at};
ghost use Rattle.vab_tidy.specs.Counts.{CountsFaults};
ghost use Rattle.vab_survey.specs.Copies.{IsTablesPage, AreKept};
ghost use Rattle.vab_survey.specs.Surveyed.{AreGeometries, IsDetailed, IsSurvey};

use crate::finding::is_of_contents;
use crate::found::said_geometry;
use crate::geometries::{Geometries, read_geometries, read_mark};
use crate::parts::{Parts, read_parts};
use crate::tables::{TablesPage, tables_at};
use std::alloc::Global;
use vab_device::StartFault;
use vab_disk::Disk;
use vab_marks::{MarkFault, MarkVersion, UpdateMark};
use vab_recover::{MIN_SECTORS, probe};

/// The parts of a disk that is large enough.
#[derive(Drop)]
pub struct Details {
    /// The mark as it stands, also behind a merge that has ended.
    pub mark: Result<UpdateMark, MarkFault>,
    /// The version of the mark, where there is one.
    pub version: MarkVersion,
    pub parts: Parts,
    pub geometries: Geometries,
    /// The copies of both slots' tables, where there is a geometry.
    pub tables: Option<TablesPage>,
}

/// What a disk says part by part.
#[derive(Drop)]
pub struct Survey {
    /// Sectors of 512 bytes.
    pub sectors: u64,
    /// The first thing wrong, in the order of opening; none where the disk is a device.
    pub first: Option<StartFault>,
    /// None where the disk is too small.
    pub details: Option<Details>,
}

// A fault of what the disk holds as what is wrong with it.
fn wrong_of(fault: StartFault) -> Result<Option<StartFault>, StartFault>
    ensures wrong { IfOk result (λ x. (x ≡ Some fault) × IsOfContents fault) }
    ensures kind { OnOk result (IsOfDisk fault → ⊥) }
    ensures failed { IfErr result (λ f. (f ≡ fault) × (IsOfContents f → ⊥)) }
{
    if is_of_contents(&fault) {
        Ok(Some(fault))
    } else {
        Err(fault)
    }
}

// The first thing wrong.
fn first_wrong<D: Disk>(alloc: Global, d: &mut D) -> Result<Option<StartFault>, StartFault>
    ensures first { D.is_modelled → IfOk result (λ x. MatchOption x
        (IsOk (device (D.size d.old) (D.seen d.old)))
        (λ f. device (D.size d.old) (D.seen d.old) ≡ Err f)) }
    ensures failed { IfErr result (λ f. IsOfContents f → ⊥) }
    ensures reads { OnlyReads D.Disk d.old d.new }
    ensures counts { CountsFaults D.Disk d.old d.new result }
{
    match probe(alloc, d) {
        Ok(_device) => Ok(None),
        Err(fault) => wrong_of(fault),
    }
}

// The tables of both slots, where there is a geometry.
fn tables_there<D: Disk>(alloc: Global, d: &mut D) -> Result<Option<TablesPage>, StartFault>
    requires { 4120 ≤ D.size d.old }
    ensures tables { D.is_modelled → IfOk result (λ x. MatchOption x
        ((f : Fault) × (geometry_at (D.size d.old) (D.seen d.old) ≡ Err f))
        (IsTablesPage (D.size d.old) (D.seen d.old))) }
    ensures kept { IfOk result (λ x. IfSome x AreKept) }
    ensures failed { IfErr result (λ f. IsOfContents f → ⊥) }
    ensures reads { OnlyReads D.Disk d.old d.new }
    ensures counts { CountsFaults D.Disk d.old d.new result }
{
    match said_geometry(d) {
        Err(fault) => Err(fault),
        Ok(Err(_)) => Ok(None),
        Ok(Ok(geometry)) => match tables_at(alloc, d, geometry) {
            Err(fault) => Err(fault),
            Ok(page) => Ok(Some(page)),
        },
    }
}

// What stands in three sectors: the mark with its version, and both copies of the geometry.
fn read_sectors<D: Disk>(
    d: &mut D,
) -> Result<(Result<UpdateMark, MarkFault>, MarkVersion, Geometries), StartFault>
    requires { 4120 ≤ D.size d.old }
    ensures mark { D.is_modelled → IfOk result (λ r. r.0 ≡ mark_of (D.seen d.old 2048)) }
    ensures version { D.is_modelled → IfOk result (λ r. r.1 ≡ version_in (D.seen d.old 2048)) }
    ensures geometries { D.is_modelled → IfOk result (λ r. AreGeometries (D.seen d.old) r.2) }
    ensures failed { IfErr result (λ f. IsOfContents f → ⊥) }
    ensures reads { OnlyReads D.Disk d.old d.new }
    ensures counts { CountsFaults D.Disk d.old d.new result }
{
    match read_mark(d) {
        Err(fault) => Err(fault),
        Ok((mark, version)) => match read_geometries(d) {
            Err(fault) => Err(fault),
            Ok(geometries) => Ok((mark, version, geometries)),
        },
    }
}

// The parts of a disk that is large enough.
fn read_details<D: Disk>(alloc: Global, d: &mut D) -> Result<Details, StartFault>
    requires { 4120 ≤ D.size d.old }
    ensures details { D.is_modelled → IfOk result (IsDetailed (D.size d.old) (D.seen d.old)) }
    ensures kept { IfOk result (λ x. IfSome x.tables AreKept) }
    ensures failed { IfErr result (λ f. IsOfContents f → ⊥) }
    ensures reads { OnlyReads D.Disk d.old d.new }
    ensures counts { CountsFaults D.Disk d.old d.new result }
{
    match read_sectors(d) {
        Err(fault) => Err(fault),
        Ok((mark, version, geometries)) => match read_parts(alloc, d) {
            Err(fault) => Err(fault),
            Ok(parts) => match tables_there(alloc, d) {
                Err(fault) => Err(fault),
                Ok(tables) => Ok(Details {
                    mark,
                    version,
                    parts,
                    geometries,
                    tables,
                }),
            },
        },
    }
}

// Those of a disk of so many sectors, if that is large enough.
fn details_of<D: Disk>(
    alloc: Global,
    d: &mut D,
    sectors: u64,
) -> Result<Option<Details>, StartFault>
    requires { sectors ≡ D.size d.old }
    ensures details { D.is_modelled → IfOk result (λ x. MatchOption x
        (nat_le 4120 (D.size d.old) ≡ false)
        (IsDetailed (D.size d.old) (D.seen d.old))) }
    ensures failed { IfErr result (λ f. IsOfContents f → ⊥) }
    ensures reads { OnlyReads D.Disk d.old d.new }
    ensures counts { CountsFaults D.Disk d.old d.new result }
{
    if sectors < MIN_SECTORS {
        return Ok(None);
    }
    match read_details(alloc, d) {
        Err(fault) => Err(fault),
        Ok(details) => Ok(Some(details)),
    }
}

/// What a disk says part by part. It doesn't stop at the first thing wrong: each part is judged
/// that can be read. The error is want of memory, or comes where the disk has failed.
pub fn survey_disk<D: Disk>(alloc: Global, d: &mut D) -> Result<Survey, StartFault>
    ensures survey { D.is_modelled → IfOk result (IsSurvey (D.size d.old) (D.seen d.old)) }
    ensures failed { IfErr result (λ f. IsOfContents f → ⊥) }
    ensures reads { OnlyReads D.Disk d.old d.new }
    ensures counts { CountsFaults D.Disk d.old d.new result }
{
    let sectors = d.sectors();
    match first_wrong(alloc, d) {
        Err(fault) => Err(fault),
        Ok(first) => match details_of(alloc, d, sectors) {
            Err(fault) => Err(fault),
            Ok(details) => Ok(Survey {
                sectors,
                first,
                details,
            }),
        },
    }
}
