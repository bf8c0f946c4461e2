//! A world, with what answers need beside it.
ghost use Rattle.std.specs.Prelude.{◌≡◌, [], IfOk};
ghost use Rattle.bw_model.specs.Sessions.{empty};
ghost use Rattle.bw_sound.specs.Worlds.{BeginsSound};
ghost use Rattle.bw_world.specs.Stands.{StandsFor};

use bw_format::Formats;
use bw_http::Intake;
use bw_lang::Memory;
use bw_questions::Served;
use bw_world::World;
use std::alloc::Global;

/// A world with the formats of its fields, and the memory and the room by which requests are read and answered.
#[derive(Drop)]
pub struct Server {
    pub alloc: Global,
    pub world: World,
    pub formats: Formats,
    pub intake: Intake,
}

impl Server {
    /// A service that is accepted, in the world in which nothing was requested yet. All the memory that it needs before a
    /// request is taken here.
    pub fn new(alloc: Global, served: Served) -> Result<Server, Memory>
        ensures service { IfOk result (λ s. s.world.service ≡ served.checked.typed.service) }
        ensures formats { IfOk result (λ s. s.formats ≡ served.formats) }
        ensures stands { IfOk result (λ s. StandsFor s.world (empty s.world.service)) }
        ensures sound { IfOk result (λ s. BeginsSound s.world.service) }
        ensures none { IfOk result (λ s. s.intake ≡ []) }
    {
        let Served { checked, formats } = served;
        let Ok(world) = World::new(alloc, checked) else {
            drop(formats);
            return Err(Memory);
        };
        Server::of(alloc, world, formats)
    }

    /// A world with these formats, of which no byte of a request is at hand.
    pub fn of(alloc: Global, world: World, formats: Formats) -> Result<Server, Memory>
        ensures world { IfOk result (λ s. s.world ≡ world) }
        ensures formats { IfOk result (λ s. s.formats ≡ formats) }
        ensures none { IfOk result (λ s. s.intake ≡ []) }
    {
        match Intake::new(alloc) {
            Ok(intake) => Ok(Server {
                alloc,
                world,
                formats,
                intake,
            }),
            Err(Memory) => {
                drop(world);
                drop(formats);
                Err(Memory)
            }
        }
    }
}
