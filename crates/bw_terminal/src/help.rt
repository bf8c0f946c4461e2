//! What `bigwig --help` says, and every other line of words that is refused.

/// It goes to standard error, behind the usage line on standard output.
pub const HELP: &str = "
bigwig check SERVICE             says 'accepted', or each fault of the service's pages
  --schema FILE                  judges by the schema of this file; else by the built-in one
  --workers N                    judges with N threads at most, from 1 to 16; else with 1
  --show-source                  shows behind each line where it is, what is wrong and how it is mended
  --explain                      shows behind the faults a page that has the first one of an element
bigwig replay SERVICE REQUESTS   checks the service, and answers the requests of a file
  --schema FILE, --workers N     as check has them, and --show-source
  --formats FILE                 takes values in the formats of this file alone; else any values
  --limit N                      answers N requests at most, from 1 to 1000000; else 1000000
  --journal FILE                 keeps all that changes the service in this file, and goes on from it
  --load FILE                    goes on from the sessions that this file was saved with; not beside a journal
bigwig serve SERVICE             checks the service, and serves it to browsers on this machine
  --schema FILE, --workers N     as check has them, and --show-source
  --formats FILE                 as replay has it
  --port N                       at this port, from 1 to 65535; else at 8080
  --limit N                      for N connections at most, from 1 to 1000000; else for 1000000
  --journal FILE, --load FILE    as replay has them
  --rotate BYTES                 begins a journal of more bytes anew as the server starts, at what waits then; from 1 to
                                 4000000000, and only beside a journal
bigwig valid PAGE                says 'valid', or which element of the page breaks which rule
  --schema FILE                  as check has it
bigwig make N                    makes a service of N pages, from 1 to 250, checks it and runs it
  --workers N                    as check has it
bigwig light FORMATS TEXTS       prints a light for each line 'FIELD TEXT': green where the text is in the field's
                                 format, yellow where a longer one may be, red where none is
bigwig freeze SERVICE REQUESTS   answers the requests of a file, and prints what waits then, in place of the replies,
                                 for --load
  --schema FILE, --workers N     as check has them, and --show-source
  --formats FILE, --limit N      as replay has them
  --load FILE                    as replay has it
  --journal FILE                 in place of REQUESTS, --limit and --load: prints what waits in the world that this
                                 journal brings back, and does nothing to it
bigwig visit SERVICE SCRIPT      checks the service, and visits it: the first line of the script is a session's name, and
                                 each further one fills in the next page, as 'name=Anna&age=42'
  --schema FILE, --workers N     as check has them, and --show-source
  --formats FILE                 as replay has it

Options stand anywhere among the words. README.md is where to begin; docs/FORMATS.md has each line that is
printed and each exit code, docs/LANGUAGE.md how a service is written.
";
