//! What a line that breaks no rule adds.
ghost use Rattle.std.specs.Prelude.{◌≡◌, ◌≤◌, true, false, Some, None, OnOk, IfErr, is_none, is_some};
ghost use Rattle.sys_text.specs.Rules.{image_named, misnames, overfills, lacks_words, no_words, lowest_of_file, root_of, with_open, closed, add_line};
ghost use Rattle.sys_text.specs.Line.{said, default_entry, Clusters, Pager, Syncreads, Syncsteps, End, Root as ARoot, Chan};
ghost use Rattle.sys_text.specs.Numbers.{Fits, FitsHeader, RootFits};
ghost use Rattle.sys_text.specs.FileRefusals.{IsOfFile, RefusesFile, with_file_loaded};
ghost use Rattle.sys_text.specs.WordLines.{RefusesBy};
ghost use Rattle.sys_text.specs.ImageNames.{KnowsImages};

use crate::line::{Line, RootFields};
use crate::open_block::OpenBlock;
use crate::refusal::SystemRefused;
use crate::stage::Stage;
use crate::state::{Reader, State};
use crate::system::Root;
use rv_elf::ElfRefused;
use std::alloc::{AllocError, Global};
use t32_base::process::ClusterNo;
use t32_base::streams::NoMemory;

/// Closes the open block.
pub fn close_image(alloc: Global, reader: &mut Reader<'_>) -> Result<(), NoMemory>
    requires open_block { is_some reader.old.state.block ≡ true }
    requires known { KnowsImages reader.old }
    ensures added { OnOk result (reader.new.state ≡ closed reader.old.state reader.old.state.block) }
    ensures known { OnOk result (KnowsImages reader.new) }
{
    let Some(block) = reader.state.block.take() else {
        unreachable!()
    };
    let place = reader.state.system.images.len() as u64;
    reader.places.define(block.name(), place)?;
    let image = block.into_image(alloc)?;
    reader.state.system.images.push(image)?;
    reader.state.stage = Stage::Images;
    reader.state.file = None;
    Ok(())
}

fn add_clusters(state: &mut State<'_>, count: u64)
    requires { count ≤ 255 }
    ensures { state.new ≡ add_line state.old (Clusters count) }
{
    state.system.clusters = count as u8;
    state.stage = Stage::AfterClusters;
}

fn add_pager(state: &mut State<'_>, first: u64, second: u64)
    requires first { first ≤ 255 }
    requires second { second ≤ 255 }
    ensures { state.new ≡ add_line state.old (Pager first second) }
{
    state.system.pager = (ClusterNo(first as u8), ClusterNo(second as u8));
    state.stage = Stage::AfterPager;
}

fn add_syncreads(state: &mut State<'_>, count: u64)
    requires { count ≤ 100000 }
    ensures { state.new ≡ add_line state.old (Syncreads count) }
{
    state.system.syncreads = count as u32;
    state.stage = Stage::AfterSyncreads;
}

fn add_syncsteps(state: &mut State<'_>, count: u64)
    requires { count ≤ 100000 }
    ensures { state.new ≡ add_line state.old (Syncsteps count) }
{
    state.system.syncsteps = count as u32;
    state.stage = Stage::Images;
}

/// Opens the block of an image.
fn open_image<'a>(alloc: Global, state: &mut State<'a>, name: &'a [u8], pages: u64, entry: u64)
    requires { FitsHeader pages entry }
    ensures { state.new ≡ with_open state.old (no_words name.now pages entry) None }
{
    state.block = Some(OpenBlock::new(alloc, name, pages as u16, entry as u32));
    state.stage = Stage::InImage;
    state.file = None;
}

/// Opens the block of a file of so many bytes.
fn open_file<'a>(alloc: Global, state: &mut State<'a>, name: &'a [u8], pages: u64, size: u64)
    requires { FitsHeader pages size }
    ensures { state.new ≡ with_open state.old (no_words name.now pages default_entry) (Some size) }
{
    state.block = Some(OpenBlock::new(alloc, name, pages as u16, 0x10000));
    state.stage = Stage::InImage;
    state.file = Some(size as u32);
}

/// What a file that breaks a rule is to the line that ends its block.
fn file_refused(number: u64, refused: ElfRefused) -> SystemRefused
    requires { IsOfFile refused }
    ensures { RefusesFile result number refused }
{
    match refused {
        ElfRefused::NoMemory => SystemRefused::NoMemory,
        ElfRefused::Rule(rule) => SystemRefused::BadLine {
            line: number,
            rule: 10 + rule,
        },
    }
}

/// Gives the open block the memory of its file, where it is the block of one, which line `number` ends.
fn load_file(alloc: Global, reader: &mut Reader<'_>, number: u64) -> Result<(), SystemRefused>
    requires open_block { is_some reader.old.state.block ≡ true }
    requires words { lacks_words reader.old.state.file reader.old.state.block ≡ false }
    ensures loaded { OnOk result (reader.new ≡ with_file_loaded reader.old) }
    ensures kept { OnOk result (lowest_of_file reader.old.state End ≡ None) }
    ensures refused { IfErr result (λ refused. RefusesBy refused number (lowest_of_file reader.old.state End)) }
{
    let Some(size) = reader.state.file else {
        return Ok(());
    };
    let Some(block) = reader.state.block.as_mut() else {
        unreachable!()
    };
    match block.load_file(alloc, size) {
        Ok(()) => Ok(()),
        Err(refused) => Err(file_refused(number, refused)),
    }
}

/// Ends the open block at line `number`.
fn end_block(alloc: Global, reader: &mut Reader<'_>, number: u64) -> Result<(), SystemRefused>
    requires open_block { is_some reader.old.state.block ≡ true }
    requires words { lacks_words reader.old.state.file reader.old.state.block ≡ false }
    requires known { KnowsImages reader.old }
    ensures added { OnOk result (reader.new.state ≡ add_line reader.old.state End) }
    ensures kept { OnOk result (lowest_of_file reader.old.state End ≡ None) }
    ensures refused { IfErr result (λ refused. RefusesBy refused number (lowest_of_file reader.old.state End)) }
    ensures known { OnOk result (KnowsImages reader.new) }
{
    load_file(alloc, reader, number)?;
    close_image(alloc, reader)?;
    Ok(())
}

/// The root of these fields, whose image has this place.
fn root_of(root: RootFields, image: u64) -> Root
    requires { RootFits root }
    ensures { result ≡ root_of root image }
{
    Root {
        home: ClusterNo(root.home as u8),
        backup: ClusterNo(root.backup as u8),
        mode: root.mode,
        image,
        limit: root.limit as u32,
        births: root.births as u8,
        tty: root.tty as u8,
    }
}

/// Adds a root, whose image is there.
fn add_root<'a>(
    reader: &mut Reader<'a>,
    root: RootFields,
    image: &'a [u8],
) -> Result<(), AllocError>
    requires numbers { RootFits root }
    requires named { is_none (image_named reader.old.state.system image.now) ≡ false }
    requires known { KnowsImages reader.old }
    ensures added { OnOk result (reader.new.state ≡ add_line reader.old.state (ARoot root image.now)) }
    ensures known { OnOk result (KnowsImages reader.new) }
{
    let Some(place) = reader.place(image) else {
        unreachable!()
    };
    reader.state.system.roots.push(root_of(root, place))?;
    reader.state.stage = Stage::Roots;
    Ok(())
}

fn add_chan(state: &mut State<'_>, first: u64, second: u64) -> Result<(), AllocError>
    requires first { first ≤ 255 }
    requires second { second ≤ 255 }
    ensures { OnOk result (state.new ≡ add_line state.old (Chan first second)) }
{
    state.system.chans.push((first as u8, second as u8))?;
    state.stage = Stage::Chans;
    Ok(())
}

/// Adds what line `number` says, which breaks none of the rules up to 8; a file that it ends may break one.
pub fn add_line<'a>(
    alloc: Global,
    reader: &mut Reader<'a>,
    number: u64,
    line: Line<'a>,
) -> Result<(), SystemRefused>
    requires numbers { Fits (said line) }
    requires named { misnames reader.old.state.system (said line) ≡ false }
    requires open_block { said line ≡ End → is_some reader.old.state.block ≡ true }
    requires words { overfills reader.old.state (said line) ≡ false }
    requires known { KnowsImages reader.old }
    ensures added { OnOk result (reader.new.state ≡ add_line reader.old.state (said line.entry)) }
    ensures kept { OnOk result (lowest_of_file reader.old.state (said line.entry) ≡ None) }
    ensures refused { IfErr result (λ refused. RefusesBy refused number (lowest_of_file reader.old.state (said line.entry))) }
    ensures known { OnOk result (KnowsImages reader.new) }
{
    match line {
        Line::Clusters(count) => add_clusters(&mut reader.state, count),
        Line::Pager(first, second) => add_pager(&mut reader.state, first, second),
        Line::Syncreads(count) => add_syncreads(&mut reader.state, count),
        Line::Syncsteps(count) => add_syncsteps(&mut reader.state, count),
        Line::Image(name, pages, entry) => open_image(alloc, &mut reader.state, name, pages, entry),
        Line::Asm(name, pages) => open_image(alloc, &mut reader.state, name, pages, 0x10000),
        Line::Elf(name, pages, size) => open_file(alloc, &mut reader.state, name, pages, size),
        Line::End => end_block(alloc, reader, number)?,
        Line::Root(root, image) => add_root(reader, root, image)?,
        Line::Chan(first, second) => add_chan(&mut reader.state, first, second)?,
    }
    Ok(())
}
