// The program on the pairs of files in `data` that its arguments name: 52 pairs, then one argument, then none.
// 01's example and others: an empty record, more than a hundred readings, more than can be counted. Version 2: the empty record where the flag is
// 1, where it is 0, and where it is neither or missing; a record with events; the longest image, and one byte more. Each refusal of an image. The rule at
// fault: the first, the last of 768 although an earlier one breaks 7, and where two break it the first of them. A symbol that no rule can finish, one that
// cannot be reached, on a record that is too long, and no rule, where a quiet shift is proper. Each refusal of a record, and what is just accepted. Two
// refusals at once, a table that just holds the longest record, and longer files, endless ones too. A file that is missing, or has no name. A folder, and a
// file that may not be read.
#![tactic(auto)]

const RUNS: usize = 54;

fn main(rt: HostRuntime) {
    for x in 0..RUNS {
        shell::run_at(&rt, 2 * x + 1);
    }
}
