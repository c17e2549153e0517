// The lists that say what is stored where.
ghost use Rattle.site_json.specs.Elements as said;

use crate::element::Element;
use crate::members::{has_number, is_text, small, text};
use cta_site::{Class, NoMemory, Route, TapePool, Vo};
use serde_json::Value;
use std::alloc::Global;

impl Element for Vo {
    ghost is_element = { said.tells_vo };

    ghost element_of = { said.vo_told };

    fn is(value: &Value) -> bool {
        is_text(value, "name")
            && has_number(value, 0, 64, "readDrives")
            && has_number(value, 0, 64, "writeDrives")
    }

    fn of(alloc: Global, value: &Value) -> Result<Vo, NoMemory> {
        let name = text(alloc, value, "name")?;
        Ok(Vo {
            name,
            read_drives: small(value, 64, "readDrives"),
            write_drives: small(value, 64, "writeDrives"),
        })
    }
}

impl Element for Class {
    ghost is_element = { said.tells_class };

    ghost element_of = { said.class_told };

    fn is(value: &Value) -> bool {
        is_text(value, "name") && is_text(value, "vo") && has_number(value, 1, 4, "copies")
    }

    fn of(alloc: Global, value: &Value) -> Result<Class, NoMemory> {
        let name = text(alloc, value, "name")?;
        let vo = text(alloc, value, "vo")?;
        Ok(Class {
            name,
            vo,
            copies: small(value, 4, "copies") as u8,
        })
    }
}

impl Element for TapePool {
    ghost is_element = { said.tells_pool };

    ghost element_of = { said.pool_told };

    fn is(value: &Value) -> bool {
        is_text(value, "name") && is_text(value, "vo")
    }

    fn of(alloc: Global, value: &Value) -> Result<TapePool, NoMemory> {
        let name = text(alloc, value, "name")?;
        let vo = text(alloc, value, "vo")?;
        Ok(TapePool { name, vo })
    }
}

impl Element for Route {
    ghost is_element = { said.tells_route };

    ghost element_of = { said.route_told };

    fn is(value: &Value) -> bool {
        is_text(value, "class") && has_number(value, 1, 4, "copy") && is_text(value, "pool")
    }

    fn of(alloc: Global, value: &Value) -> Result<Route, NoMemory> {
        let class = text(alloc, value, "class")?;
        let pool = text(alloc, value, "pool")?;
        Ok(Route {
            class,
            copy: small(value, 4, "copy") as u8,
            pool,
        })
    }
}
