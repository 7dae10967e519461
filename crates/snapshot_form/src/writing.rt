//! Writing snapshots.
ghost use Rattle.std.specs.Prelude.{◌≡◌, ◌++◌, IfOk, OnOk};
ghost use Rattle.std.specs.Int.{w32};
ghost use Rattle.std.specs.List.{flat_map};
ghost use Rattle.smart_base.specs.Spelling.{behind};
ghost use Rattle.smart_base.specs.ViewBytes.{view_text};
ghost use Rattle.snapshot_form.specs.Snapshots.{line_text, counted, snapshot_text};

use smart_base::field::{put_text, put_u16, put_u32, put_u64};
use smart_base::sequence::Bytes;
use smart_base::view::View;
use smart_base::view_bytes::put_view;
use smart_service::replica::Replica;
use smart_service::service::Service;
use smart_service::table::TableLine;
use std::alloc::{AllocError, Global};

fn put_line(out: &mut Vec<u8>, line: &TableLine) -> Result<(), AllocError>
    ensures { OnOk result (out.new.items ≡ out.old.items ++ line_text line.now) }
{
    put_u16(out, line.last.client.get())?;
    put_u64(out, line.last.seq)?;
    let place = line.last.place.get();
    put_u64(out, place)?;
    put_u16(out, line.last.index)?;
    put_u32(out, line.last.view.get())?;
    put_text(out, line.last.reply.as_slice())?;
    Ok(())
}

fn put_each_view(out: &mut Vec<u8>, views: &[View]) -> Result<(), AllocError>
    ensures { OnOk result (out.new.items ≡ out.old.items ++ flat_map view_text views.now) }
{
    for view in views {
        put_view(out, view)?;
    }
    Ok(())
}

fn put_each_line(out: &mut Vec<u8>, lines: &[TableLine]) -> Result<(), AllocError>
    ensures { OnOk result (out.new.items ≡ out.old.items ++ flat_map line_text lines.now) }
{
    for line in lines {
        put_line(out, line)?;
    }
    Ok(())
}

/// A count in 16 bits. A greater one has no spelling: the answer is want of memory.
fn count_of(count: usize) -> Result<u16, AllocError>
    ensures { IfOk result (λ number. number ≡ count) }
{
    if count < 1 << 16 {
        Ok(count as u16)
    } else {
        Err(AllocError)
    }
}

fn put_views(out: &mut Vec<u8>, views: &[View]) -> Result<(), AllocError>
    ensures { OnOk result (out.new.items ≡ out.old.items ++ counted view_text views.now) }
{
    let count = count_of(views.len())?;
    put_u16(out, count)?;
    put_each_view(out, views)
}

fn put_lines(out: &mut Vec<u8>, lines: &[TableLine]) -> Result<(), AllocError>
    ensures { OnOk result (out.new.items ≡ out.old.items ++ counted line_text lines.now) }
{
    let count = count_of(lines.len())?;
    put_u16(out, count)?;
    put_each_line(out, lines)
}

/// Adds the bytes of a service. More bytes than a number of 32 bits counts have no spelling: the
/// answer is want of memory.
fn put_service(out: &mut Vec<u8>, bytes: &[u8]) -> Result<(), AllocError>
    ensures { OnOk result (out.new.items ≡ out.old.items ++ behind w32 bytes.now) }
{
    if bytes.len() < 1 << 32 {
        put_text(out, bytes)?;
        Ok(())
    } else {
        Err(AllocError)
    }
}

/// A replica's snapshot. Of whichever replica the bytes are made, they are the definition's. Those of
/// a replica that fits are read back as it. Error: want of memory, also where a part of a replica that
/// does not fit has no spelling.
#[tactic(auto, unfolding(crate::specs::Snapshots::snapshot_text))]
pub fn to_bytes<S: Service>(alloc: Global, replica: &Replica<S>) -> Result<Bytes, AllocError>
    ensures text { IfOk result (λ bytes. bytes ≡ snapshot_text S.meaning replica.now) }
{
    let mut out = Vec::new(alloc);
    put_u64(&mut out, replica.place.get())?;
    put_views(&mut out, replica.views.as_slice())?;
    put_lines(&mut out, replica.table.as_slice())?;
    let service = replica.service.snapshot(alloc)?;
    put_service(&mut out, service.as_slice())?;
    Ok(Bytes::from_vec(out))
}
