// The library for C: the static library, whose one export is the function of that name in `codlinbell`, with the same clauses.
#![tactic(auto)]

ghost use Rattle.std.specs.Prelude.{◌≡◌};
ghost use Rattle.codlinbell.specs.Hosted.{hosted};

// Answers the image over the lent heap into the first six numbers of `out`. Where `out` has fewer, nothing is done. A slice is a pointer
// and a length.
#[unsafe(no_mangle)]
pub extern "C" fn codlinbell_answer(
    image: &[u8],
    heap: &mut [u64],
    limit: u64,
    out: &mut [u64],
) -> bool
    ensures { record { done = result; heap = heap.new; out = out.new } ≡ hosted image.now heap.old limit out.old }
{
    codlinbell::codlinbell_answer(image, heap, limit, out)
}
