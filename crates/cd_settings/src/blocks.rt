//! The blocks of plug-ins that read their options themselves.
ghost use Rattle.cd_conf.specs.Canonical.{items_text};
ghost use Rattle.cd_settings.specs.TopLevel.{with_block};
ghost use Rattle.std.specs.List.{position};
ghost use Rattle.std.specs.Prelude.{IfOk, OnOk, ◌≡◌};
ghost use Rattle.std.specs.Str.{bytes_eq};

use cd_conf::{Items, print};
use cd_value::{Memory, Sequence, Text};
use std::alloc::Global;
use std::mem;

/// What a plug-in is configured with.
#[derive(Drop)]
pub struct Block {
    /// The name of the plug-in.
    pub name: Text,
    /// The canonical text of the items of all its blocks, in order.
    pub text: Text,
}

/// Blocks of different plug-ins, in the order of the first block of each.
pub type Blocks = Sequence<Block>;

/// The place of the block of a plug-in.
fn place_of(blocks: &[Block], name: &str) -> Option<usize>
    ensures { result ≡ position (λ block. bytes_eq block.name name.now) blocks.now }
{
    blocks.iter().position(|block| block.name.as_str() == name)
}

/// The blocks with another text, which comes behind what its plug-in has.
fn with_block(alloc: Global, blocks: Blocks, name: &str, text: Text) -> Result<Blocks, Memory>
    ensures { IfOk result (λ new. new ≡ with_block blocks name.now text) }
{
    let mut blocks = blocks.into_vec();
    if let Some(i) = place_of(blocks.as_slice(), name) {
        blocks[i].text.push(text.as_str())?;
        return Ok(Sequence::from_vec(blocks));
    }
    let name = Text::of(alloc, name)?;
    blocks.push(Block { name, text })?;
    Ok(Sequence::from_vec(blocks))
}

/// Puts the canonical text of items behind what a plug-in has. After want of memory nothing is
/// said of the blocks.
pub fn add(alloc: Global, blocks: &mut Blocks, name: &str, items: &Items) -> Result<(), Memory>
    ensures { let text = items_text items.now in
        OnOk result (blocks.new ≡ with_block blocks.old name.now text) }
{
    let text = print(alloc, items)?;
    let before = mem::replace(blocks, Sequence::new(alloc));
    *blocks = with_block(alloc, before, name, text)?;
    Ok(())
}
