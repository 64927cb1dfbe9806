// The words that the program is started with, those of `desk`: `[--limit N] [--topic FILTER] [FILE]`. With `--status` among them the program ends with an
// exit status, which the script `desk` at the top ends with too; else its exit status is 0.
use desk_arguments::Asked;

// A word that is too long for the buffer is no word of desk's.
fn with_arg(rt: HostRuntime, mut a: Asked, i: usize) -> Asked {
    let mut text = outside::word_buffer();
    let Some(n) = outside::word(&rt, i, &mut text) else {
        a.bad = true;
        return a;
    };
    desk_arguments::with_word(a, &text[..n], i)
}

pub fn read(rt: HostRuntime) -> Asked {
    let mut a = desk_arguments::none();
    for i in 1..outside::word_count(&rt) {
        a = with_arg(rt, a, i);
    }
    desk_arguments::ended(a)
}
