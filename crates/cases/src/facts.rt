// The numbers of an image chunk, of a layer chunk and of a mask, and of a rectangle, as the lines have them: in file order but for a layer's
// rectangles, which come last; a flag is 0 or 1. A name and blend ranges are bytes, and shown by a hash.
use crate::hash;
use attributes::image_attributes::ImageChunk;
use chunk::alpha_information::AlphaChunk;
use chunk::area::Area;
use chunk::layer_information::LayerChunk;
use chunk::mask::Mask;
use rect::Rect;
use std::io;
use std::io::Write;

pub fn corners(out: &mut impl Write, r: Rect) -> io::Result<()> {
    write!(out, " {} {} {} {}", r.left, r.top, r.right, r.bottom)
}

fn area(out: &mut impl Write, a: Area) -> io::Result<()> {
    corners(out, a.border)?;
    corners(out, a.saved)
}

pub fn image(out: &mut impl Write, i: ImageChunk) -> io::Result<()> {
    write!(
        out,
        " {} {} {} {}",
        i.width, i.height, i.bits, i.resolution.metric
    )?;
    write!(out, " {} {} {}", i.compression, i.depth, i.planes)?;
    write!(
        out,
        " {} {} {} {} {}",
        i.colours, i.grey, i.total, i.active, i.layers
    )
}

pub fn layer(out: &mut impl Write, l: LayerChunk) -> io::Result<()> {
    write!(out, " {} {} {}", l.kind, l.opacity, l.blending)?;
    flags(out, l)?;
    write!(out, " {} {} {}", l.blends, l.bitmaps, l.channels)?;
    area(out, l.image)?;
    area(out, l.mask)?;
    write!(
        out,
        " {} {}",
        hash::of_bytes(&l.name),
        hash::of_bytes(&l.ranges)
    )
}

fn flags(out: &mut impl Write, l: LayerChunk) -> io::Result<()> {
    let (visible, protected) = (u8::from(l.visible), u8::from(l.protected));
    let (linked, disabled, inverted) = (
        u8::from(l.linked),
        u8::from(l.disabled),
        u8::from(l.inverted),
    );
    write!(
        out,
        " {visible} {protected} {} {linked} {disabled} {inverted}",
        l.group
    )
}

pub fn mask(out: &mut impl Write, m: Mask) -> io::Result<()> {
    write!(out, " {} {}", m.bitmaps, m.channels)?;
    area(out, m.area)
}

pub fn alpha(out: &mut impl Write, a: AlphaChunk) -> io::Result<()> {
    mask(out, a.mask)?;
    write!(out, " {}", hash::of_bytes(&a.name))
}
