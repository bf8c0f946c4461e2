//! What the words of the command line ask for.

use bw_lang::Text;

/// The greatest number of requests that are answered.
pub const MAX_REQUESTS: u32 = 1_000_000;

/// The greatest number of links that are served.
pub const MAX_LINKS: u32 = 1_000_000;

/// The greatest number of a port.
pub const MAX_PORT: u32 = 65_535;

/// The port that is served where none is named.
pub const DEFAULT_PORT: u16 = 8080;

/// The greatest number of bytes of a journal that isn't begun anew.
pub const MAX_ROTATE: u32 = 4_000_000_000;

/// The greatest number of workers.
pub const MAX_WORKERS: u32 = 16;

/// What a service is judged by.
#[derive(Drop)]
pub struct Judging {
    /// The name of the schema file. Where there is none, the built-in schema is meant.
    pub schema: Option<Text>,
    /// How many workers judge it, from 1 to 16.
    pub workers: u32,
    /// Whether its source is shown where it is refused.
    pub source: bool,
}

/// What the words name of a service that is checked, and maybe served.
#[derive(Clone, Copy)]
pub struct Named<'s, 'j, 'f> {
    /// The name of the service file.
    pub service: &'s Text,
    pub judging: &'j Judging,
    /// The name of the file of formats. Where there is none, no field has a format.
    pub formats: &'f Option<Text>,
}

/// What is asked for.
#[derive(Drop)]
pub enum Command {
    /// To say whether a service is accepted.
    Check {
        /// The name of the service file.
        service: Text,
        judging: Judging,
        /// Whether a page is printed that shows its first fault of an element.
        explain: bool,
    },
    /// To answer requests.
    Replay {
        /// The name of the service file.
        service: Text,
        /// The name of the file of requests.
        requests: Text,
        judging: Judging,
        /// The name of the file of formats. Where there is none, no field has a format.
        formats: Option<Text>,
        /// The name of the file of saved sessions. Where there is none, nothing was requested yet.
        load: Option<Text>,
        /// The greatest number of requests that are answered.
        most: u32,
    },
    /// To answer requests beside a journal.
    Resume {
        /// The name of the service file.
        service: Text,
        /// The name of the file of requests.
        requests: Text,
        judging: Judging,
        /// The name of the file of formats. Where there is none, no field has a format.
        formats: Option<Text>,
        /// The name of the journal.
        journal: Text,
        /// The greatest number of requests that are answered.
        most: u32,
    },
    /// To serve links.
    Serve {
        /// The name of the service file.
        service: Text,
        judging: Judging,
        /// The name of the file of formats. Where there is none, no field has a format.
        formats: Option<Text>,
        /// The name of the file of saved sessions. Where there is none, nothing was requested yet.
        load: Option<Text>,
        /// The port.
        port: u16,
        /// The greatest number of links that are served.
        most: u32,
    },
    /// To serve links beside a journal.
    Keep {
        /// The name of the service file.
        service: Text,
        judging: Judging,
        /// The name of the file of formats. Where there is none, no field has a format.
        formats: Option<Text>,
        /// The name of the journal.
        journal: Text,
        /// The journal is begun anew if it has more bytes than these. Where there is no number, it never is.
        rotate: Option<u32>,
        /// The port.
        port: u16,
        /// The greatest number of links that are served.
        most: u32,
    },
    /// To say whether a page is valid.
    Valid {
        /// The name of the page file.
        page: Text,
        /// The name of the schema file. Where there is none, the built-in schema is meant.
        schema: Option<Text>,
    },
    /// To make a service, check it and run it.
    Make {
        /// How many pages it has, from 1 to 250.
        count: u32,
        /// How many workers judge it, from 1 to 16.
        workers: u32,
    },
    /// To print the lights of texts.
    Light {
        /// The name of the file of formats.
        formats: Text,
        /// The name of the file of texts.
        texts: Text,
    },
    /// To answer requests and save what then waits.
    Freeze {
        /// The name of the service file.
        service: Text,
        /// The name of the file of requests.
        requests: Text,
        judging: Judging,
        /// The name of the file of formats. Where there is none, no field has a format.
        formats: Option<Text>,
        /// The name of the file of saved sessions. Where there is none, nothing was requested yet.
        load: Option<Text>,
        /// The greatest number of requests that are answered.
        most: u32,
    },
    /// To save what waits in the world that a journal brings about.
    Preserve {
        /// The name of the service file.
        service: Text,
        judging: Judging,
        /// The name of the file of formats. Where there is none, no field has a format.
        formats: Option<Text>,
        /// The name of the journal.
        journal: Text,
    },
    /// To visit a session by a script.
    Visit {
        /// The name of the service file.
        service: Text,
        /// The name of the script.
        script: Text,
        judging: Judging,
        /// The name of the file of formats. Where there is none, no field has a format.
        formats: Option<Text>,
    },
}
