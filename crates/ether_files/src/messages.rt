//! Why a file is not read or written, as messages say it.

pub(crate) const NOT_OPENED: &str = "can't be opened";

pub(crate) const NOT_WRITTEN: &str = "can't be written";

pub(crate) const NO_FILE: &str = ": there is no such file";

pub(crate) const NO_FOLDER: &str = ": there is no such folder";

pub(crate) const NO_NAME: &str = ": its name is empty";

pub(crate) const NO_SPACE: &str = ": no space is left";

pub(crate) const DENIED: &str = ": permission denied";

pub(crate) const IS_FOLDER: &str = ": it is a folder";

pub(crate) const IS_OUTPUT: &str = ": it is the output, too";
