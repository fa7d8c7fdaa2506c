//! What `--help` and `--version` print.
use anyhow::Result;

/// Prints the version.
pub fn print_version(rt: &HostRuntime) -> Result<()> {
    Ok(println!(rt; "lgrep 0.1.0")?)
}

/// Prints how the patterns are given, and what of a line they have to match.
fn print_patterns(rt: &HostRuntime) -> Result<()> {
    println!(rt;
        "Prints the lines of files that a pattern matches. A pattern has the syntax of Rust's regex crate."
    )?;
    println!(rt; "\nPatterns:")?;
    println!(rt; "  -e, --regexp=PATTERN       a pattern")?;
    println!(rt; "  -f, --file=FILE            a file with a pattern on each line")?;
    println!(rt; "  -F, --fixed-strings        patterns are literal")?;
    println!(rt; "  -i, --ignore-case          ignores case")?;
    println!(rt; "  -w, --word-regexp          matches whole words only")?;
    println!(rt; "  -x, --line-regexp          matches whole lines only")?;
    println!(rt; "  -v, --invert-match         takes the lines without a match")?;
    println!(rt; "  -m, --max-count=NUM        takes at most NUM lines of a file")?;
    Ok(println!(rt; "  -z, --null-data            lines end in a NUL, not in a line feed")?)
}

/// Prints the flags about the lines around those that are taken.
fn print_around(rt: &HostRuntime) -> Result<()> {
    println!(rt; "\nLines around:")?;
    println!(rt; "  -A, --after-context=NUM    prints NUM lines after each line that is taken")?;
    println!(rt; "  -B, --before-context=NUM   prints NUM lines before it")?;
    Ok(println!(rt; "  -C, --context=NUM, -NUM    prints NUM lines on both sides")?)
}

/// Prints the flags about what is printed.
fn print_output(rt: &HostRuntime) -> Result<()> {
    println!(rt; "\nOutput:")?;
    println!(rt; "  -c, --count                prints only the number of lines")?;
    println!(rt; "  -l, --files-with-matches   prints only the names of files with such a line")?;
    println!(rt; "  -L, --files-without-match  prints only the names of files without one")?;
    println!(rt; "  -o, --only-matching        prints only the matches of the lines")?;
    println!(rt; "      --replace=TEXT         prints TEXT in place of each match")?;
    println!(rt; "      --which                prints before each line which patterns match it")?;
    println!(rt; "  -q, --quiet, --silent      prints nothing")?;
    println!(rt; "  -n, --line-number          prints line numbers")?;
    println!(rt; "  -b, --byte-offset          prints the offsets of lines, or of matches")?;
    println!(rt; "  -T, --initial-tab          prints a tab before a line")?;
    println!(rt; "  -H, --with-filename        prints file names")?;
    println!(rt; "  -h, --no-filename          prints no file names")?;
    println!(rt; "  -Z, --null                 ends file names with a NUL")?;
    println!(rt;
        "  -s, --no-messages          prints no messages about files that cannot be read"
    )?;
    Ok(println!(rt; "      --stats                prints statistics to standard error")?)
}

/// Prints the flags about which files are searched, and how.
fn print_files(rt: &HostRuntime) -> Result<()> {
    println!(rt; "\nFiles:")?;
    println!(rt; "  -r, -R, --recursive        searches the files below directories")?;
    println!(rt; "      --include=GLOB         searches only files with such a name")?;
    println!(rt; "      --exclude=GLOB         leaves out files with such a name")?;
    println!(rt; "      --exclude-dir=GLOB     leaves out directories with such a name")?;
    println!(rt; "  -a, --text                 searches binary files as text")?;
    println!(rt; "  -I                         binary files have no match")?;
    println!(rt; "      --cache=MIB            the capacity of each cache; 64 by default")?;
    println!(rt; "\nThe status is 0 if a line is taken, 1 if none is, and 2 after an error.")?;
    Ok(println!(rt; "The manual, lgrep(1), has more.")?)
}

/// Prints a short description of the flags.
pub fn print_help(rt: &HostRuntime) -> Result<()> {
    println!(rt; "usage: lgrep [FLAG].. PATTERN [FILE]..")?;
    println!(rt; "       lgrep [FLAG].. -e PATTERN.. -f FILE.. [FILE]..\n")?;
    print_patterns(rt)?;
    print_around(rt)?;
    print_output(rt)?;
    print_files(rt)
}
