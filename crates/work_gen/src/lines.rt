//! The lines of a generated text.

ghost use Rattle.std.specs.Prelude.{◌≡◌, ◌++◌, OnOk, IfOk, flat_map, string_bytes};
ghost use Rattle.std.specs.List.{range_with_len};
ghost use Rattle.work_gen.specs.Generator.{call_statement, drawn_line, function_line, main_line};
ghost use Rattle.work_gen.specs.Generator as generator;

use std::alloc::AllocError;
use std::fmt::Write;

/// The number that a draw makes of the one before.
fn next_draw(r: u32) -> u32
    ensures { result ≡ generator.next_draw r }
{
    r.wrapping_mul(1_664_525).wrapping_add(1_013_904_223)
}

/// Puts the line of function `k` with a factor and a mask.
fn put_function(text: &mut String, k: u32, factor: u32, mask: u32) -> Result<(), AllocError>
    ensures { OnOk result (string_bytes text.new ≡ string_bytes text.old ++ function_line k factor mask) }
{
    writeln!(
        text,
        "unsigned f{k}(unsigned a,unsigned b){{unsigned c;unsigned d;c=a*{factor}+b;d=a^{mask};if(c<d){{c=c+d;}}else{{c=c-b;}}return c^d;}}"
    )
}

/// Puts the lines of the functions, for each of which two numbers are drawn.
pub(crate) fn put_functions(text: &mut String, seed: u32, size: u32) -> Result<(), AllocError>
    ensures { OnOk result (string_bytes text.new ≡ string_bytes text.old
        ++ flat_map (drawn_line seed) (range_with_len 0 size)) }
{
    let mut drawn = seed;
    for k in 0..size {
        let first = next_draw(drawn);
        drawn = next_draw(first);
        put_function(text, k, 1 + (first >> 24), drawn >> 16)?;
    }
    Ok(())
}

/// Puts the statement of `main` that calls function `k`.
fn put_call(text: &mut String, k: u32) -> Result<(), AllocError>
    ensures { OnOk result (string_bytes text.new ≡ string_bytes text.old ++ call_statement k) }
{
    write!(text, "x=f{k}(x,i);")
}

/// Puts the statements of `main` that call the functions.
#[tactic(auto, using(crate::proofs::Loops::pieces_more))]
fn put_calls(text: &mut String, size: u32) -> Result<(), AllocError>
    ensures { OnOk result (string_bytes text.new ≡ string_bytes text.old
        ++ flat_map call_statement (range_with_len 0 size)) }
{
    for k in 0..size {
        put_call(text, k)?;
    }
    Ok(())
}

/// Puts the line of `main`.
pub(crate) fn put_main(text: &mut String, size: u32) -> Result<(), AllocError>
    ensures { OnOk result (string_bytes text.new ≡ string_bytes text.old ++ main_line size) }
{
    text.push_str("int main(void){unsigned x;int i;x=1;for(i=0;i<4;i++){")?;
    put_calls(text, size)?;
    text.push_str("}putchar(x&127);return x>>25;}\n")?;
    Ok(())
}
