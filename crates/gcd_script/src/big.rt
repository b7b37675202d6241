// The script of the large input.
ghost use Rattle.std.specs.Prelude.{◌≡◌, ◌<◌, ◌++◌, IfOk, OnOk, None, decimal, length};
ghost use Rattle.gcd_script.specs.BigScript.{big_name, big_queue, big_block, big_act, ended_line, big_script};
ghost use Rattle.gcd_script.specs.Faults.{fault_of};
ghost use Rattle.gcd_plan.specs.Limits.{max_blocks};

use itoa::Buffer;
use std::alloc::{AllocError, Global};

// The lines before the blocks.
const HEAD: &[u8] =
    b"file data data\nqueue s0 serial\nqueue s1 serial\nqueue s2 serial on s0\nqueue s3 serial on s1\n\
    queue c0 concurrent\nqueue c1 concurrent on s0\n";

// Appends a number in decimal.
fn push_number(into: &mut Vec<u8>, n: u32) -> Result<(), AllocError>
    ensures { OnOk result (into.new.items ≡ into.old.items ++ decimal n) }
{
    let mut buffer = Buffer::new();
    into.extend_from_slice(buffer.format(n).as_bytes())
}

// Appends the line that declares block k.
fn push_block(into: &mut Vec<u8>, k: u32) -> Result<(), AllocError>
    requires { k < max_blocks }
    ensures { OnOk result (into.new.items ≡ into.old.items ++ ended_line (big_block k)) }
{
    into.extend_from_slice(b"block b")?;
    push_number(into, k)?;
    into.extend_from_slice(b" sum data ")?;
    push_number(into, 37 * k % 4033)?;
    into.extend_from_slice(b" 64\n")
}

// The queue to which block k goes.
fn queue_name(k: u32) -> &'static [u8]
    ensures { result.now ≡ big_queue k }
{
    match k % 6 {
        0 => b"s0",
        1 => b"s1",
        2 => b"s2",
        3 => b"s3",
        4 => b"c0",
        _ => b"c1",
    }
}

// Appends the act that submits block k.
fn push_act(into: &mut Vec<u8>, k: u32) -> Result<(), AllocError>
    ensures { OnOk result (into.new.items ≡ into.old.items ++ ended_line (big_act k)) }
{
    into.extend_from_slice(if k % 16 == 0 { b"barrier " } else { b"async " })?;
    into.extend_from_slice(queue_name(k))?;
    into.extend_from_slice(b" b")?;
    push_number(into, k)?;
    into.extend_from_slice(b"\n")
}

/// The script with `n` blocks, at most 16,384, that sum ranges of one file of 4,096 bytes, on four serial and two
/// concurrent queues: the large input of the command `big`. It is short enough to be
/// parsed. An `Err` comes only where memory runs out.
pub fn big_text(alloc: Global, n: u32) -> Result<Vec<u8>, AllocError>
    requires few { n < max_blocks }
    ensures text { IfOk result (λ text. text.items ≡ big_script n) }
    ensures script { IfOk result (λ text. fault_of text.items ≡ None) }
    ensures few_bytes { IfOk result (λ text. length text.items < u32.MAX) }
{
    let mut text = Vec::from_slice(alloc, HEAD)?;
    for k in 0..n {
        push_block(&mut text, k + 1)?;
    }
    text.extend_from_slice(b"main\n")?;
    for k in 0..n {
        push_act(&mut text, k + 1)?;
    }
    Ok(text)
}
