// The words of the command, and what they ask for (R15.16).

#[derive(Drop)]
pub(crate) enum Task {
    Page,
    Help,
    Version,
    // The word with this index is wrong: the first that is.
    Wrong { at: usize },
}

// What the words ask for: those from index first on, of so many.
pub(crate) fn asked(rt: HostRuntime, first: usize, count: usize, buffer: &mut [u8]) -> Task {
    if count <= first {
        return Task::Page;
    }
    let alone = count - first == 1;
    let len = edge::arg(rt, first, buffer).unwrap_or(0);
    if alone {
        if lend::equal(&buffer[..len], b"--help") {
            return Task::Help;
        }
        if lend::equal(&buffer[..len], b"--version") {
            return Task::Version;
        }
    }
    Task::Wrong { at: first }
}
