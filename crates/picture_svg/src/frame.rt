//! Where the bands of the sites and the columns stand.

use np_syntax::{List, Memory};
use run_pictures::Column;
use std::alloc::Global;

/// How far from the left the first band begins, how wide a column is, and how far bands are apart.
const LEFT: u32 = 24;

const PITCH: u32 = 54;

const GAP: u32 = 14;

#[derive(Clone, Copy)]
pub(crate) struct Band {
    pub left: u32,
    pub width: u32,
}

/// The middle of each column, the band of each site, and where the last band ends.
#[derive(Drop)]
pub(crate) struct Frame {
    pub middles: List<u32>,
    pub bands: List<Band>,
    pub right: u32,
}

/// So many zeros.
fn zeros(alloc: Global, count: usize) -> Result<List<u32>, Memory> {
    let mut counts = List::new(alloc);
    for _ in 0..count {
        counts.add(0u32)?;
    }
    Ok(counts)
}

/// Counts one more at a place, and answers how many there were.
fn count_one(counts: &mut List<u32>, place: usize) -> u32 {
    if place < counts.len() {
        let before = counts.as_slice()[place];
        counts.set(place, before.saturating_add(1));
        before
    } else {
        0
    }
}

/// The bands of sites that have so many columns, and where the last one ends.
fn bands_of(alloc: Global, counts: &[u32]) -> Result<(List<Band>, u32), Memory> {
    let mut bands = List::new(alloc);
    let mut left = LEFT;
    for count in counts {
        let width = PITCH.saturating_mul((*count).max(1));
        bands.add(Band { left, width })?;
        left = left.saturating_add(width).saturating_add(GAP);
    }
    Ok((bands, left.saturating_sub(GAP)))
}

/// Where the band of a site begins.
fn left_of(bands: &[Band], site: u32) -> u32 {
    match bands.get(site as usize) {
        Some(band) => band.left,
        None => LEFT,
    }
}

/// The middles of the columns: those of a site stand in its band in their order.
fn middles_of(
    alloc: Global,
    sites: usize,
    bands: &[Band],
    columns: &[Column],
) -> Result<List<u32>, Memory> {
    let mut seen = zeros(alloc, sites)?;
    let mut middles = List::new(alloc);
    for column in columns {
        let before = count_one(&mut seen, column.site as usize);
        let inside = before.saturating_mul(PITCH).saturating_add(PITCH / 2);
        middles.add(left_of(bands, column.site).saturating_add(inside))?;
    }
    Ok(middles)
}

/// The frame of so many sites with these columns.
pub(crate) fn frame_of(alloc: Global, sites: usize, columns: &[Column]) -> Result<Frame, Memory> {
    let mut counts = zeros(alloc, sites)?;
    for column in columns {
        let _ = count_one(&mut counts, column.site as usize);
    }
    let (bands, right) = bands_of(alloc, counts.as_slice())?;
    let middles = middles_of(alloc, sites, bands.as_slice(), columns)?;
    Ok(Frame {
        middles,
        bands,
        right,
    })
}
