//! What is printed where a text can't be fetched.

use child_cmd::FetchError;
use cli_text::fetch_text;
use std::test::Fail;

#[test]
fn a_line_for_each_reason(rt: HostRuntime) -> Result<(), Fail> {
    let alloc = rt.alloc();
    for (error, text) in [
        (FetchError::Fault, "fetch of path for storage sa: fault\n"),
        (
            FetchError::Status(3),
            "fetch of path for storage sa: status 3\n",
        ),
        (
            FetchError::Status(-1),
            "fetch of path for storage sa: status -1\n",
        ),
        (
            FetchError::TooLong,
            "fetch of path for storage sa: too long\n",
        ),
        (
            FetchError::Text,
            "fetch of path for storage sa: not UTF-8\n",
        ),
        (
            FetchError::Ended,
            "fetch of path for storage sa: end of input\n",
        ),
        (
            FetchError::Input,
            "fetch of path for storage sa: input fault\n",
        ),
        (
            FetchError::Output,
            "fetch of path for storage sa: output fault\n",
        ),
        (FetchError::NoMemory, "out of memory\n"),
    ] {
        let printed = fetch_text(alloc, "path", "storage sa", &error)?;
        assert_eq!(rt; printed.as_str(), text);
    }
    Ok(())
}
